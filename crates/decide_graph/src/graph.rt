//! The nodes that are kept, and the cones of their places.

ghost use Rattle.std.specs.Prelude.{◌≡◌, ◌<◌, ◌≤◌, ◌^◌, [], IfOk, OnOk, length};
ghost use Rattle.decide_nodes.specs.Nodes.{StandsAt, node_at};
ghost use Rattle.decide_graph.specs.Graph.{IsConeOfNode};
ghost use Rattle.decide_graph.specs.Kept.{node_of};
ghost use Rattle.decide_graph.specs.NodeRoots.{AddsNode, AreNodeRoots};

use crate::kept::{KeptNode, KeptNodes};
use crate::node_root::{NodeRoot, nodes_of, turned_values};
use crate::picked::picked_nodes;
use crate::walk::reached_nodes;
use base_lists::Memory;
use decide_nodes::Cone;
use design_cell::Value;
use design_circuit::Place;
use std::alloc::Global;
use std::marker::Model;

/// Nodes by number, each of which reads earlier ones alone. Contracts see them in order.
#[derive(Drop)]
pub struct Graph {
    nodes: KeptNodes,
}

impl Model for Graph {
    ghost use Rattle.std.specs.Prelude.{List};
    ghost use Rattle.decide_nodes.specs.declared.node.Node.{Node as AnyNode};
    ghost use Rattle.decide_graph.specs.Graph.{AreOrdered};

    ghost Value = { List AnyNode };

    ghost view = { λ graph. graph.nodes };

    ghost invariant = { λ graph. AreOrdered graph.nodes };
}

impl Graph {
    /// No nodes.
    pub fn new(alloc: Global) -> Graph
        ensures { result ≡ [] }
    {
        Graph {
            nodes: KeptNodes::new(alloc),
        }
    }

    /// How many there are.
    pub fn len(&self) -> usize
        ensures { result ≡ length self.now }
    {
        self.nodes.len()
    }

    /// The node of a place comes in that isn't carried, from the roots of its essential arguments and its table over
    /// these arguments. Takes 24 bytes, 4 a root and 1 a value.
    pub fn add(
        &mut self,
        alloc: Global,
        place: Place,
        roots: &[NodeRoot],
        values: &[Value],
    ) -> Result<(), Memory>
        requires few { length self.old < 2 ^ 27 }
        requires roots { AreNodeRoots (length self.old) roots.now }
        requires table { length values.now ≡ 2 ^ length roots.now }
        ensures { OnOk result (AddsNode self.old place roots.now values.now self.new) }
    {
        let values = turned_values(alloc, roots, values)?;
        let arguments = nodes_of(roots);
        self.nodes
            .push(place, arguments.as_slice(), values.as_slice())?;
        Ok(())
    }

    /// The node of a number: its place, the nodes that it reads, and its table over these.
    pub fn node(&self, number: usize) -> KeptNode<'_>
        requires { number < length self.now }
        ensures node { node_at self.now number ≡ node_of result }
        ensures stands { StandsAt number (node_of result).body }
    {
        self.nodes.node(number)
    }

    /// The cone of the place of a node: the nodes that are reached from it, by a heap of them in O(m log m) for m
    /// nodes. Works in a room that is lent, of 4 bytes for each node of the graph; takes 120 bytes for each node of the
    /// cone, and for a table past 16 values a byte a value.
    pub fn cone(&self, alloc: Global, node: usize, room: &mut Vec<u32>) -> Result<Cone, Memory>
        requires { node < length self.now }
        ensures { IfOk result (λ cone. IsConeOfNode self.now node cone.nodes) }
    {
        let taken = reached_nodes(alloc, &self.nodes, node)?;
        widen(room, self.nodes.len())?;
        let picked = picked_nodes(alloc, &self.nodes, taken, room)?;
        Cone::new(alloc, picked)
    }
}

/// There is room for some positions, whatever stands there.
fn widen(room: &mut Vec<u32>, len: usize) -> Result<(), Memory>
    ensures { OnOk result (len ≤ length room.new.items) }
{
    'more: while room.len() < len {
        room.push(0)?;
    }
    Ok(())
}
