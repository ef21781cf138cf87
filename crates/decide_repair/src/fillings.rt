//! Random fillings of a cone's sources, beside those of the lanes, which find most of the remaining unknown places at
//! the cost of a few passes over the cone. They are fixed functions of the place and the pass, so that each run gives
//! the same bytes. No contract rests on which they are.

ghost use Rattle.std.specs.Prelude.{IfOk, IfSome};
ghost use Rattle.decide_nodes.specs.Traced.{IsNextCone};
ghost use Rattle.wave_proved.specs.Token.{PairHolds};

use base_lists::Memory;
use decide_cone::Cone;
use decide_nodes::{ConeLanes, LaneBits};
use decide_pair::try_in;
use std::alloc::Global;
use wave_proved::{Verdict, Wave};

/// How many passes of 256 fillings are made.
const PASSES: u64 = 2;

/// Two fillings that give 0 and 1, where one of some random fillings gives another bit than the empty one.
pub fn try_fillings(alloc: Global, wave: &Wave<'_>, cone: &Cone) -> Result<Option<Verdict>, Memory>
    requires { IsNextCone wave.now cone.now.nodes }
    ensures { IfOk result (λ found. IfSome found (PairHolds wave.now)) }
{
    let seed = mixed(wave.count() as u64);
    let mut lane_table = ConeLanes::new(alloc, cone)?;
    'passes: for pass in 0..PASSES {
        let given = lane_table_of(alloc, cone.sources().len(), mixed(seed ^ pass))?;
        match try_in(alloc, wave, cone, &mut lane_table, given.as_slice())? {
            Some(pair) => return Ok(Some(pair)),
            None => {}
        }
    }
    Ok(None)
}

/// Lanes for each source: its bit in a lane is that in the filling of the lane.
fn lane_table_of(alloc: Global, count: usize, seed: u64) -> Result<Vec<LaneBits>, Memory> {
    let mut lane_table = Vec::with_capacity(alloc, count)?;
    let mut state = seed;
    'sources: for _ in 0..count {
        lane_table.push(random_lanes(state))?;
        state = mixed(state);
    }
    Ok(lane_table)
}

/// Random bits. In the first two of lanes's four parts about half of them are 1, in the third an eighth, in the last
/// seven eighths.
fn random_lanes(state: u64) -> LaneBits {
    let first = mixed(state ^ 0x5851_f42d_4c95_7f2d);
    let second = mixed(first);
    let third = mixed(second);
    let fourth = mixed(third);
    LaneBits::new([
        first,
        fourth,
        first & second & third,
        first | second | third,
    ])
}

/// A number mixed well (the finisher of splitmix64).
fn mixed(number: u64) -> u64 {
    let a = number.wrapping_add(0x9e37_79b9_7f4a_7c15);
    let b = (a ^ (a >> 30)).wrapping_mul(0xbf58_476d_1ce4_e5b9);
    let c = (b ^ (b >> 27)).wrapping_mul(0x94d0_49bb_1331_11eb);
    c ^ (c >> 31)
}
