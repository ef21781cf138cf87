//! The nodes that are still to get a table, so that one gets its own.

ghost use Rattle.std.specs.Prelude.{◌<◌, ◌≤◌, IfOk, IfSome, OnOk, length};
ghost use Rattle.std.specs.List.{AllByRecursion};

use crate::kept::KeptTables;
use base_lists::Memory;
use decide_graph::{Graph, Reached};
use std::alloc::Global;

/// The nodes that are reached from one, the greatest first, down to nodes that have tables; those whose table is aged
/// are among them. None where they are more than a number says.
pub fn missing_nodes(
    alloc: Global,
    graph: &Graph,
    young: &KeptTables,
    aged: &KeptTables,
    top: usize,
    most: usize,
) -> Result<Option<Vec<usize>>, Memory>
    requires { top < length graph.now }
    ensures { IfOk result (λ found. IfSome found (λ nodes. AllByRecursion (λ node. node < length graph.now) nodes.items)) }
{
    let mut reached = Reached::new(alloc);
    let mut missing = Vec::new(alloc);
    reached.insert(top)?;
    'nodes: while let Some(node) = reached.take_greatest() {
        if missing.len() >= most {
            return Ok(None);
        }
        if !young.has(node) {
            missing.push(node)?;
            reach_read(&mut reached, graph, aged, node)?;
        }
    }
    Ok(Some(missing))
}

/// What a node reads comes in, unless its table is aged.
fn reach_read(
    reached: &mut Reached,
    graph: &Graph,
    aged: &KeptTables,
    node: usize,
) -> Result<(), Memory>
    requires node { node < length graph.now }
    requires below { AllByRecursion (λ k. k < node) reached.old }
    ensures { OnOk result (AllByRecursion (λ k. k < node) reached.new) }
{
    if aged.has(node) {
        return Ok(());
    }
    let kept = graph.node(node);
    insert_all(reached, kept.arguments, node)
}

fn insert_all(reached: &mut Reached, arguments: &[u32], bound: usize) -> Result<(), Memory>
    requires below { AllByRecursion (λ k. k < bound) reached.old }
    requires arguments { AllByRecursion (λ k. k < bound) arguments.now }
    ensures { OnOk result (AllByRecursion (λ k. k < bound) reached.new) }
{
    'arguments: for index in 0..arguments.len() {
        reached.insert(arguments[index] as usize)?;
    }
    Ok(())
}
