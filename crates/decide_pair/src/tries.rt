//! 256 fillings at once against the empty one.

ghost use Rattle.std.specs.Prelude.{◌≡◌, ◌<◌, ◌↔◌, IfOk, IfSome, IsNone, MatchOption, length};
ghost use Rattle.decide_nodes.specs.Lanes.{lane_of};
ghost use Rattle.decide_nodes.specs.Nodes.{chosen, nothing, root_bit, sources_of};
ghost use Rattle.decide_nodes.specs.OfWave.{PairHolds};
ghost use Rattle.decide_pair.specs.Pairs.{AllAgree, Differs, IsLeastOther, pair_with};
ghost use Rattle.decide_nodes.specs.Traced.{IsNextCone};

use crate::lanes::least_lane;
use base_lists::{Items, Memory};
use decide_nodes::{Cone, ConeLanes, LaneBits, Verdict, Wave};
use law_model::Body;
use std::alloc::Global;

/// Tries the 256 fillings in which source i has the bits of given[i], or 0 where nothing is given. Where one gives
/// the place another bit than the empty filling, the two are its pair. Takes 32 bytes a node, and a filling.
pub fn try_lanes(
    alloc: Global,
    wave: &Wave<'_>,
    cone: &Cone,
    given: &[LaneBits],
) -> Result<Option<Verdict>, Memory>
    requires { IsNextCone wave.now cone.now.nodes }
    ensures holds { IfOk result (λ found. IfSome found (PairHolds wave.now)) }
    ensures none { IfOk result (λ found. IsNone found ↔ AllAgree cone.now.nodes given.now) }
{
    let mut lane_table = ConeLanes::new(alloc, cone)?;
    try_in(alloc, wave, cone, &mut lane_table, given)
}

/// The same in room that calls share. Takes memory for a filling alone.
pub fn try_in(
    alloc: Global,
    wave: &Wave<'_>,
    cone: &Cone,
    lane_table: &mut ConeLanes,
    given: &[LaneBits],
) -> Result<Option<Verdict>, Memory>
    requires cone { IsNextCone wave.now cone.now.nodes }
    requires room { lane_table.old.nodes ≡ length cone.now.nodes }
    ensures holds { IfOk result (λ found. IfSome found (PairHolds wave.now)) }
    ensures none { IfOk result (λ found. IsNone found ↔ AllAgree cone.now.nodes given.now) }
    ensures room { lane_table.new.nodes ≡ lane_table.old.nodes }
{
    match other_lane(cone, lane_table, given) {
        None => Ok(None),
        Some(lane) => {
            let pair = pair_of_lane(alloc, wave, cone, given, lane)?;
            Ok(Some(pair))
        }
    }
}

/// A lane whose filling gives the place another bit than the empty one, of these one whose number has the least ones.
pub fn other_lane(cone: &Cone, lane_table: &mut ConeLanes, given: &[LaneBits]) -> Option<u32>
    requires { lane_table.old.nodes ≡ length cone.now.nodes }
    ensures lane { MatchOption result (AllAgree cone.now.nodes given.now) (IsLeastOther cone.now.nodes given.now) }
    ensures room { lane_table.new.nodes ≡ lane_table.old.nodes }
{
    let lane_bits = lane_table.root(cone, given);
    least_lane(lane_bits.turned(cone.base()))
}

/// The pair of the empty filling and that of a lane, in the order that the empty one says. Takes memory for a filling.
pub fn pair_of_lane(
    alloc: Global,
    wave: &Wave<'_>,
    cone: &Cone,
    given: &[LaneBits],
    lane: u32,
) -> Result<Verdict, Memory>
    requires cone { IsNextCone wave.now cone.now.nodes }
    requires lane { lane < 256 }
    requires differs { Differs cone.now.nodes given.now lane }
    ensures holds { IfOk result (PairHolds wave.now) }
    ensures body { let other = chosen (sources_of cone.now.nodes) (lane_of given.now lane) in
        IfOk result (λ verdict. verdict.body ≡ pair_with (root_bit nothing cone.now.nodes) other) }
{
    let other = cone.chosen(alloc, given, lane)?;
    let empty = Items::from_vec(Vec::new(alloc));
    if cone.base() {
        Ok(Verdict::from_law(wave, Body::Pair(other, empty)))
    } else {
        Ok(Verdict::from_law(wave, Body::Pair(empty, other)))
    }
}
