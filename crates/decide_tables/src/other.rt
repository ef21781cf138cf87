//! How the bits of a node under the fillings of a list compare with its bit under the empty one: a filling that gives
//! it another bit, one that lists the fewest, or none does.

ghost use Rattle.std.specs.Prelude.{◌<◌, ◌≤◌, IfOk, MatchOption, length};
ghost use Rattle.decide_tables.specs.Other.{AreAll, IsAll, IsLeastOtherAt, IsLeastOtherBelow, IsShownBy};

use crate::fillings::places_by;
use base_lists::{Items, Memory};
use decide_nodes::LaneBits;
use decide_pair::{fewer, least_lane, number_blocks};
use design_circuit::{Filling, Place};
use std::alloc::Global;

/// A filling under which a node has another bit than under the empty one, and its bit under that.
pub struct Other {
    pub filling: Filling,
    pub empty: bool,
}

/// What tables show of a node.
pub enum Compared {
    /// A filling gives it another bit than the empty one.
    Other(Other),
    /// Every filling of places of the list gives it this bit.
    Same(bool),
    /// Nothing: it has no table.
    Nothing,
}

/// What the blocks of a node over a list show; nothing where they aren't those of all fillings. Takes 8 bytes for each
/// place of the filling.
pub fn compare_blocks(
    alloc: Global,
    list: &[Place],
    blocks: &[LaneBits],
) -> Result<Compared, Memory>
    requires { length list.now ≤ 16 }
    ensures { IfOk result (IsShownBy list.now blocks.now) }
{
    if blocks.len() != number_blocks(list.len()) {
        return Ok(Compared::Nothing);
    }
    let empty = blocks[0].in_lane(0);
    match other_number(blocks, empty) {
        None => Ok(Compared::Same(empty)),
        Some(number) => {
            let places = places_by(alloc, list, number)?;
            Ok(Compared::Other(Other {
                filling: Items::from_vec(places),
                empty,
            }))
        }
    }
}

/// A number at which blocks have another bit than one that is given, with the least ones of those.
fn other_number(blocks: &[LaneBits], empty: bool) -> Option<usize>
    requires { length blocks.now ≤ 256 }
    ensures { MatchOption result (AreAll blocks.now empty (length blocks.now))
        (IsLeastOtherBelow blocks.now empty (length blocks.now)) }
{
    let mut found = None;
    'numbers: for block in 0..blocks.len() {
        found = fewer(found, other_in(blocks, block, empty));
    }
    found
}

/// One in a block.
fn other_in(blocks: &[LaneBits], block: usize, empty: bool) -> Option<usize>
    requires within { block < length blocks.now }
    requires few { block < 256 }
    ensures { MatchOption result (IsAll blocks.now empty block) (IsLeastOtherAt blocks.now empty block) }
{
    match least_lane(blocks[block].turned(empty)) {
        Some(lane) => Some(256 * block + lane as usize),
        None => None,
    }
}
