//! What a guess about the next place needs. Nothing is promised of it, so a guess is tested before it counts.

use super::Lanes;
use crate::pair::EMPTY;
use decide_graph::Graph;

impl Lanes {
    /// The graph, as long as it is kept.
    pub fn graph(&self) -> Option<&Graph> {
        match &self.graph {
            Some(graph) => Some(graph),
            None => None,
        }
    }

    /// The node in the graph of the next place, if that was looked at.
    pub fn next_node(&self) -> Option<u32> {
        match self.next {
            Some(node) => narrow(node.saturating_sub(1)),
            None => None,
        }
    }

    /// The bit of the next place in the lane whose filling is empty, if that place was looked at.
    pub fn empty_bit(&self) -> Option<bool> {
        match self.next {
            Some(node) if node < self.nodes.len() => {
                Some(self.nodes.lane_bits(node).in_lane(EMPTY))
            }
            _ => None,
        }
    }

    /// Whether the next place was looked at and has up to so many sources, which are kept.
    pub fn has_few_sources(&self, most: usize) -> bool {
        match self.next {
            Some(node) if node < self.nodes.len() => match self.nodes.sources(node) {
                Some(list) => list.len() <= most,
                None => false,
            },
            _ => false,
        }
    }

    /// The positions that the nodes of the graph have in the cone that `cone` made last, by node; for a node that isn't
    /// in it any number, or none.
    pub fn positions(&self) -> &[u32] {
        self.positions.as_slice()
    }
}

/// A number in four bytes, if it fits.
fn narrow(number: usize) -> Option<u32> {
    if number > u32::MAX as usize {
        None
    } else {
        Some(number as u32)
    }
}
