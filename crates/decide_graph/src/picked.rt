//! The nodes that are marked, by their positions among these.

ghost use Rattle.std.specs.Prelude.{◌≡◌, ◌<◌, ◌≤◌, IfOk, length, map, slice_index};
ghost use Rattle.std.specs.List.{AllByRecursion};
ghost use Rattle.decide_nodes.specs.Nodes.{StandsAt};
ghost use Rattle.decide_graph.specs.Graph.{AreOrdered};
ghost use Rattle.decide_graph.specs.Kept.{node_of};
ghost use Rattle.decide_graph.specs.Picked.{moved_node, picked_by};
ghost use Rattle.decide_graph.specs.Walk.{AreAllTaken};

use crate::kept::{KeptNode, KeptNodes};
use base_lists::Memory;
use decide_nodes::{Node, NodeBody, Positions, Values};
use std::alloc::Global;

/// The nodes that are taken, from the last one on, by their positions. Takes 112 bytes a node, and for a table
/// past 16 values a byte a value.
pub fn picked_nodes(
    alloc: Global,
    nodes: &KeptNodes,
    taken: Vec<usize>,
    positions: &mut Vec<u32>,
) -> Result<Vec<Node>, Memory>
    requires ordered { AreOrdered nodes.now }
    requires taken { AreAllTaken nodes.now taken.items }
    requires room { length nodes.now ≤ length positions.old.items }
    ensures { IfOk result (λ picked. picked.items ≡ picked_by nodes.now taken.items) }
{
    let mut rest = taken;
    let mut picked = Vec::with_capacity(alloc, rest.len())?;
    'rest: while let Some(node) = rest.pop() {
        positions[node] = picked.len() as u32;
        let moved = moved_node(alloc, nodes.node(node), positions.as_slice())?;
        picked.push(moved)?;
    }
    Ok(picked)
}

/// A node by the positions of what it reads.
fn moved_node(alloc: Global, node: KeptNode<'_>, positions: &[u32]) -> Result<Node, Memory>
    requires { StandsAt (length positions.now) (node_of node).body }
    ensures { IfOk result (λ moved. moved ≡ moved_node (slice_index positions.now) (node_of node.entry)) }
{
    let values = Values::from_slice(alloc, node.values)?;
    Ok(Node {
        place: node.place,
        body: NodeBody::Rule {
            arguments: moved_arguments(node.arguments, positions),
            values,
        },
    })
}

fn moved_arguments(arguments: &[u32], positions: &[u32]) -> Positions
    requires few { length arguments.now ≤ 13 }
    requires within { AllByRecursion (λ argument. argument < length positions.now) arguments.now }
    ensures { result ≡ map (slice_index positions.now) arguments.now }
{
    let mut moved = Positions::new();
    'arguments: for argument in arguments {
        moved.push(positions[*argument as usize]);
    }
    moved
}
