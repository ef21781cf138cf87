//! What a pool of lanes shows of the next place, once it is tested, and what comes into the pool.

ghost use Rattle.std.specs.Prelude.{◌≡◌, IfOk, IfSome, OnOk};
ghost use Rattle.law_along.specs.Accepted.{AcceptsLine};
ghost use Rattle.decide_cone.specs.Cones.{AreRightOf};
ghost use Rattle.decide_cone.specs.Lanes.{IsLookedAt};
ghost use Rattle.wave_proved.specs.Token.{IsLineNext};

use crate::guessed::{find_by_filling, wanted};
use base_lists::Memory;
use decide_cone::{Cones, Lanes};
use decide_pool::Pool;
use std::alloc::Global;
use wave_proved::{Verdict, Wave};

/// What a lane of the pool shows of the next place: none where no lane gives it another bit than the empty filling
/// does, or the lane is wrong.
pub fn find_pooled(
    alloc: Global,
    wave: &Wave<'_>,
    cones: &mut Cones,
    pool: &mut Pool,
) -> Result<Option<Verdict>, Memory>
    requires class { IsLineNext wave.now }
    requires right { AreRightOf wave.now cones.old }
    requires looked { IsLookedAt wave.now cones.old.lanes }
    ensures accepts { IfOk result (λ found. IfSome found (AcceptsLine wave.now)) }
    ensures right { OnOk result (AreRightOf wave.now cones.new) }
    ensures lanes { OnOk result (cones.new.lanes ≡ cones.old.lanes) }
{
    match pooled_filling(alloc, &cones.lanes, pool)? {
        Some(ones) => find_by_filling(alloc, wave, cones, &ones),
        None => Ok(None),
    }
}

/// A filling of a lane that gives the next place another bit than the empty one does. Nothing of it is promised.
fn pooled_filling(
    alloc: Global,
    lanes: &Lanes,
    pool: &mut Pool,
) -> Result<Option<Vec<u32>>, Memory> {
    match wanted(lanes) {
        None => Ok(None),
        Some(node_bit) => match lanes.graph() {
            None => Ok(None),
            Some(graph) => pool.filling(alloc, graph, node_bit),
        },
    }
}

/// The pool takes a filling that gives the next place another bit than the empty one does.
pub fn take_filling(
    alloc: Global,
    lanes: &Lanes,
    pool: &mut Pool,
    ones: &[u32],
) -> Result<(), Memory> {
    match wanted(lanes) {
        None => Ok(()),
        Some(node_bit) => match lanes.graph() {
            None => Ok(()),
            Some(graph) => pool.take(alloc, graph, node_bit.node, ones),
        },
    }
}
