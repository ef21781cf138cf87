//! The number of a filling that gives the place another bit than the empty one, found block by block: one with the
//! least ones.

ghost use Rattle.std.specs.Prelude.{◌≡◌, ◌+◌, ◌*◌, ◌<◌, ◌≤◌, length};
ghost use Rattle.decide_pair.specs.Found.{IsFoundIn, fewer, fewer_of, has_no_fewer};

use crate::blocks::fill_block;
use crate::tries::other_lane;
use decide_nodes::{Cone, ConeLanes, LaneBits};

/// What is found up to the end of a block, from what is found before it. A block whose numbers all have as many ones is
/// left out.
pub fn found_upto(
    cone: &Cone,
    lane_table: &mut ConeLanes,
    block: usize,
    found: Option<usize>,
) -> Option<usize>
    requires room { lane_table.old.nodes ≡ length cone.now.nodes }
    requires block { block < 256 }
    requires found { IsFoundIn cone.now.nodes 0 (256 * block) found }
    ensures found { IsFoundIn cone.now.nodes 0 (256 * (block + 1)) result }
    ensures room { lane_table.new.nodes ≡ lane_table.old.nodes }
{
    if has_no_fewer(block, found) {
        return found;
    }
    fewer(found, found_in(cone, lane_table, block))
}

/// What is found in a block.
fn found_in(cone: &Cone, lane_table: &mut ConeLanes, block: usize) -> Option<usize>
    requires room { lane_table.old.nodes ≡ length cone.now.nodes }
    requires block { block < 256 }
    ensures found { IsFoundIn cone.now.nodes (256 * block) (256 * (block + 1)) result }
    ensures room { lane_table.new.nodes ≡ lane_table.old.nodes }
{
    let mut given = [LaneBits::zeros(); 16];
    fill_block(&mut given, block);
    match other_lane(cone, lane_table, &given) {
        None => None,
        Some(lane) => Some(256 * block + lane as usize),
    }
}

/// Whether no number of a block has fewer ones than the one that is found.
fn has_no_fewer(block: usize, found: Option<usize>) -> bool
    ensures { result ≡ has_no_fewer block found }
{
    match found {
        None => false,
        Some(number) => number.count_ones() <= block.count_ones(),
    }
}

/// Of what is found twice, the number with fewer ones, the first where they have as many.
pub fn fewer(first: Option<usize>, second: Option<usize>) -> Option<usize>
    ensures { result ≡ fewer first second }
{
    match first {
        None => second,
        Some(number) => Some(fewer_of(number, second)),
    }
}

fn fewer_of(number: usize, second: Option<usize>) -> usize
    ensures { result ≡ fewer_of number second }
{
    match second {
        Some(other) if other.count_ones() < number.count_ones() => other,
        _ => number,
    }
}
