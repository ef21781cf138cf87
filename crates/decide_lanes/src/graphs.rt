//! The graph of the nodes, which is kept until it is too large, and the cones of its places.

ghost use Rattle.std.specs.Prelude.{◌≡◌, ◌<◌, ◌^◌, Some, IfOk, IfSome, length};
ghost use Rattle.decide_graph.specs.NodeRoots.{AreNodeRoots};
ghost use Rattle.decide_lanes.specs.Graphs.{GivesCone, GrowsBy};

use base_lists::Memory;
use decide_graph::{Graph, NodeRoot};
use decide_nodes::Cone;
use design_cell::Value;
use design_circuit::Place;
use std::alloc::Global;

/// How many nodes a graph has at most, since a cone has no more.
const MOST_NODES: usize = 134_217_728;

/// The graph with the node of a place more, from the roots of its essential arguments and its table over these; none
/// from the time on that there is no memory for it: then what the graph took is free again.
pub fn grown(
    alloc: Global,
    graph: Option<Graph>,
    place: Place,
    roots: &[NodeRoot],
    values: &[Value],
) -> Result<Option<Graph>, Memory>
    requires roots { IfSome graph (λ nodes. AreNodeRoots (length nodes) roots.now) }
    requires table { length values.now ≡ 2 ^ length roots.now }
    ensures { IfOk result (GrowsBy graph place roots.now values.now) }
{
    match graph {
        Some(old) => with_node(alloc, old, place, roots, values),
        None => Ok(None),
    }
}

fn with_node(
    alloc: Global,
    old: Graph,
    place: Place,
    roots: &[NodeRoot],
    values: &[Value],
) -> Result<Option<Graph>, Memory>
    requires roots { AreNodeRoots (length old) roots.now }
    requires table { length values.now ≡ 2 ^ length roots.now }
    ensures { IfOk result (GrowsBy (Some old) place roots.now values.now) }
{
    if old.len() >= MOST_NODES {
        return Ok(None);
    }
    let mut graph = old;
    match graph.add(alloc, place, roots, values) {
        Ok(()) => Ok(Some(graph)),
        Err(Memory) => Ok(None),
    }
}

/// The cone of the place of a node, if there is a graph. Works in a room that is lent.
pub fn cone_of(
    alloc: Global,
    graph: &Option<Graph>,
    node: usize,
    room: &mut Vec<u32>,
) -> Result<Option<Cone>, Memory>
    requires { IfSome graph.now (λ nodes. node < length nodes) }
    ensures { IfOk result (λ found. IfSome found (λ cone. GivesCone graph.now node cone.nodes)) }
{
    match graph {
        Some(graph) => {
            let cone = graph.cone(alloc, node, room)?;
            Ok(Some(cone))
        }
        None => Ok(None),
    }
}
