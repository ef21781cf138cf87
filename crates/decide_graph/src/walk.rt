//! The nodes that are reached from one, downwards.

ghost use Rattle.std.specs.Prelude.{◌<◌, IfOk, OnOk, length};
ghost use Rattle.decide_graph.specs.Reached.{AddsAll};
ghost use Rattle.decide_graph.specs.Graph.{AreOrdered};
ghost use Rattle.decide_graph.specs.Walk.{AreTakenFrom};

use crate::kept::KeptNodes;
use crate::reached::Reached;
use base_lists::Memory;
use std::alloc::Global;

/// The nodes that are reached from one, the greatest first: all that read a node stand after it, so once it is the
/// greatest that is still to be looked at, nothing more will reach it.
pub fn reached_nodes(alloc: Global, nodes: &KeptNodes, top: usize) -> Result<Vec<usize>, Memory>
    requires ordered { AreOrdered nodes.now }
    requires within { top < length nodes.now }
    ensures { IfOk result (λ taken. AreTakenFrom nodes.now top taken.items) }
{
    let mut reached = Reached::new(alloc);
    let mut taken = Vec::new(alloc);
    reached.insert(top)?;
    'nodes: while let Some(node) = reached.take_greatest() {
        insert_all(&mut reached, nodes.node(node).arguments)?;
        taken.push(node)?;
    }
    Ok(taken)
}

/// What a node reads comes in.
fn insert_all(reached: &mut Reached, arguments: &[u32]) -> Result<(), Memory>
    ensures { OnOk result (AddsAll reached.old arguments.now reached.new) }
{
    'arguments: for argument in arguments {
        reached.insert(*argument as usize)?;
    }
    Ok(())
}
