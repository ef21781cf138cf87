//! The nodes that a search met, as variables.

use base_lists::Memory;
use sat_watches::{Variable, item_at, narrow, set_item};
use std::alloc::Global;

/// The node of each variable, and for each node of the circuit 0 where the search hasn't met it, else one more than the
/// number of its variable. Takes 4 bytes for each node up to the highest that was met.
#[derive(Drop)]
pub(crate) struct Variables {
    nodes: Vec<u32>,
    by_node: Vec<u32>,
}

impl Variables {
    /// No node is met.
    pub(crate) fn new(alloc: Global) -> Variables {
        Variables {
            nodes: Vec::new(alloc),
            by_node: Vec::new(alloc),
        }
    }

    /// No node is met any more.
    pub(crate) fn clear(&mut self) {
        'nodes: for k in 0..self.nodes.len() {
            let node = item_at(&self.nodes, k, 0);
            set_item(&mut self.by_node, node as usize, 0);
        }
        self.nodes.clear();
    }

    /// The variable of a node, if the search met it.
    pub(crate) fn find(&self, node: u32) -> Option<Variable> {
        match item_at(&self.by_node, node as usize, 0) {
            0 => None,
            code => Some(Variable { number: code - 1 }),
        }
    }

    /// A node that the search hasn't met gets a variable.
    pub(crate) fn add(&mut self, node: u32) -> Result<Variable, Memory> {
        let number = narrow(self.nodes.len());
        let place = node as usize;
        if place >= self.by_node.len() {
            self.by_node.resize(place + 1, 0)?;
        }
        self.nodes.push(node)?;
        set_item(&mut self.by_node, place, number.saturating_add(1));
        Ok(Variable { number })
    }

    /// The node of a variable.
    pub(crate) fn node(&self, variable: Variable) -> u32 {
        item_at(&self.nodes, variable.index(), 0)
    }
}
