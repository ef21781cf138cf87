//! The table of a node, block by block, from the tables of the nodes that it reads.

ghost use Rattle.std.specs.Prelude.{◌≡◌, ◌+◌, ◌*◌, ◌<◌, ◌≤◌, ◌&&◌, true, IfOk, IfSome, IsTrue, length};
ghost use Rattle.decide_graph.specs.Kept.{node_of};
ghost use Rattle.decide_nodes.specs.Lanes.{HasLanes};
ghost use Rattle.decide_nodes.specs.Nodes.{is_same_place, is_source_node, number_bits};
ghost use Rattle.decide_tables.specs.Evaluated.{AreFirstBlocks, AreFoundBlocks, HasOwnLanes, IsFoundBlock};
ghost use Rattle.decide_tables.specs.Tables.{AreAllOf, HasBlock};

use crate::kept::KeptTables;
use base_lists::Memory;
use decide_graph::{Graph, KeptNode};
use decide_nodes::{LaneBits, table_lanes};
use decide_pair::{number_blocks, source_lanes};
use design_circuit::Place;
use std::alloc::Global;

/// The blocks of a node over a list, or none where those of a node that it reads aren't found. Takes 32 bytes a block.
pub fn node_blocks(
    alloc: Global,
    graph: &Graph,
    list: &[Place],
    tables: &KeptTables,
    node: usize,
) -> Result<Option<Vec<LaneBits>>, Memory>
    requires few { length list.now ≤ 16 }
    requires node { node < length graph.now }
    requires right { AreAllOf graph.now list.now tables.now }
    ensures { IfOk result (λ found. IfSome found (λ blocks. AreFirstBlocks graph.now list.now node blocks.items)) }
{
    let count = number_blocks(list.len());
    let mut blocks = Vec::with_capacity(alloc, count)?;
    'numbers: for block in 0..count {
        match block_lanes(graph, list, tables, node, block) {
            Some(lane_bits) => blocks.push(lane_bits)?,
            None => return Ok(None),
        }
    }
    Ok(Some(blocks))
}

/// One of them.
fn block_lanes(
    graph: &Graph,
    list: &[Place],
    tables: &KeptTables,
    node: usize,
    block: usize,
) -> Option<LaneBits>
    requires few { length list.now ≤ 16 }
    requires node { node < length graph.now }
    requires right { AreAllOf graph.now list.now tables.now }
    ensures { IfSome result (HasBlock graph.now list.now node block) }
{
    let kept = graph.node(node);
    let mut given = [LaneBits::zeros(); 13];
    if !read_blocks(tables, kept.arguments, block, &mut given) {
        return None;
    }
    let own = own_lanes(list, &kept, block);
    let arguments = &given[..kept.arguments.len()];
    Some(table_lanes(arguments, kept.values, own))
}

/// The lanes of some nodes in a block; whether all are found.
fn read_blocks(tables: &KeptTables, nodes: &[u32], block: usize, given: &mut [LaneBits; 13]) -> bool
    requires { length nodes.now ≤ 13 }
    ensures all { IsTrue result → AreFoundBlocks tables.now nodes.now block given.new (length nodes.now) }
    ensures long { length given.new ≡ 13 }
{
    'nodes: for index in 0..nodes.len() {
        match block_at(tables, nodes[index] as usize, block) {
            Some(lane_bits) => given[index] = lane_bits,
            None => return false,
        }
    }
    true
}

/// The lanes of a node in a block, if they are found.
fn block_at(tables: &KeptTables, node: usize, block: usize) -> Option<LaneBits>
    ensures { IfSome result (IsFoundBlock tables.now node block) }
{
    match tables.find(node) {
        Some(blocks) if block < blocks.len() => Some(blocks[block]),
        _ => None,
    }
}

/// In each lane of a block whether the filling of its number lists the place of a node. That counts at sources alone, so
/// for any other node nothing is looked for.
fn own_lanes(list: &[Place], kept: &KeptNode<'_>, block: usize) -> LaneBits
    requires { length list.now ≤ 16 }
    ensures { is_source_node (node_of kept.now) ≡ true → HasOwnLanes list.now kept.now.place block result }
{
    if kept.is_source() {
        listed_lanes(list, kept.place, block)
    } else {
        LaneBits::zeros()
    }
}

/// In each lane of a block whether the filling of its number lists a place.
fn listed_lanes(list: &[Place], place: Place, block: usize) -> LaneBits
    requires { length list.now ≤ 16 }
    ensures { HasOwnLanes list.now place block result }
{
    let mut lanes = LaneBits::zeros();
    'sources: for source in 0..list.len() {
        lanes = lanes.or(lanes_if_same(list[source], place, block, source));
    }
    lanes
}

/// What a source of the list adds.
fn lanes_if_same(listed: Place, place: Place, block: usize, source: usize) -> LaneBits
    requires { source < 64 }
    ensures { HasLanes result (λ lane. is_same_place place listed && number_bits (256 * block + lane) source) }
{
    if place.step == listed.step && place.net == listed.net {
        source_lanes(block, source)
    } else {
        LaneBits::zeros()
    }
}
