//! Nodes of a graph that read the same nodes by the same table. Nothing promises that such a node is found.

ghost use Rattle.std.specs.Bool.{Decides};
ghost use Rattle.std.specs.Prelude.{◌≡◌, ◌<◌, IfOk, IfSome, IsTrue, length};
ghost use Rattle.decide_lanes.specs.Equal.{AreEqual};

use base_lists::Memory;
use decide_graph::Graph;
use decide_lane_nodes::any_unknown;
use design_cell::Value;
use std::alloc::Global;
use std::collections::HashMap;

/// How many nodes are kept at most, in some 64 megabytes.
const MOST_NODES: usize = 2_097_152;

/// Nodes by the codes of what they read and of their tables, one for each code. If two nodes that aren't equal have the
/// same code, the first one is kept.
#[derive(Drop)]
pub struct Equals {
    nodes: HashMap<u64, u32>,
}

impl Equals {
    /// No nodes.
    pub fn new(alloc: Global) -> Equals {
        Equals {
            nodes: HashMap::new(alloc),
        }
    }

    /// A node that came before and is equal to one, if it is kept; else this one is kept, where its table has no x.
    pub fn find(&mut self, graph: &Graph, node: usize) -> Result<Option<usize>, Memory>
        requires { node < length graph.now }
        ensures { IfOk result (λ found. IfSome found (AreEqual graph.now node)) }
    {
        let own = graph.node(node);
        if any_unknown(own.values) {
            return Ok(None);
        }
        let code = with_values(with_arguments(own.arguments), own.values);
        match self.kept(code) {
            Some(other) if are_equal(graph, node, other) => Ok(Some(other)),
            Some(_) => Ok(None),
            None => {
                self.keep(code, node)?;
                Ok(None)
            }
        }
    }

    /// The node of a code, if one is kept.
    fn kept(&self, code: u64) -> Option<usize> {
        match self.nodes.get(&code) {
            Some(node) => Some(*node as usize),
            None => None,
        }
    }

    /// A node is kept. Those that are kept go where they are too many.
    fn keep(&mut self, code: u64, node: usize) -> Result<(), Memory> {
        if self.nodes.len() >= MOST_NODES {
            self.nodes.clear();
        }
        if node <= u32::MAX as usize {
            self.nodes.insert(code, node as u32)?;
        }
        Ok(())
    }
}

/// Whether another node is there that reads the same nodes by the same table, which has no x.
fn are_equal(graph: &Graph, node: usize, other: usize) -> bool
    requires { node < length graph.now }
    ensures { IsTrue result → AreEqual graph.now node other }
{
    if other >= graph.len() {
        return false;
    }
    let first = graph.node(node);
    let second = graph.node(other);
    if any_unknown(first.values) || !are_same(first.arguments, second.arguments) {
        return false;
    }
    have_same(first.values, second.values)
}

fn are_same(first: &[u32], second: &[u32]) -> bool
    ensures { Decides result (first.now ≡ second.now) }
{
    first == second
}

fn have_same(first: &[Value], second: &[Value]) -> bool
    ensures { Decides result (first.now ≡ second.now) }
{
    first == second
}

/// A code of some nodes.
fn with_arguments(arguments: &[u32]) -> u64 {
    let mut code = 0;
    'arguments: for argument in arguments {
        code = mixed(code, *argument as u64);
    }
    code
}

/// A code with a table.
fn with_values(start: u64, values: &[Value]) -> u64 {
    let mut code = start;
    'values: for value in values {
        code = mixed(code, number_of(*value));
    }
    code
}

/// A number for each value, other than those of nodes.
fn number_of(value: Value) -> u64 {
    match value {
        Value::Zero => 0x1_0000_0000,
        Value::One => 0x1_0000_0001,
        Value::X => 0x1_0000_0002,
        Value::Z => 0x1_0000_0003,
    }
}

/// A code with a word more.
fn mixed(code: u64, word: u64) -> u64 {
    ((code ^ word).wrapping_mul(0x9e37_79b9_7f4a_7c15)).rotate_left(29)
}
