//! All fillings of the sources, and whether one gives the place another bit than the empty one.

ghost use Rattle.std.specs.Prelude.{◌≡◌, ◌<◌, ◌≤◌, ◌^◌, IfNone, IfOk, IfSome, IsFalse, IsTrue, length};
ghost use Rattle.law_model.specs.declared.line.Body.TheVariants.{Enumerated};
ghost use Rattle.decide_nodes.specs.Nodes.{chosen, nothing, number_bits, root_bit, sources_of};
ghost use Rattle.decide_pair.specs.Decision.{IsDecision};
ghost use Rattle.decide_pair.specs.Found.{IsFoundOfAll, IsOther};
ghost use Rattle.decide_pair.specs.Pairs.{pair_with};
ghost use Rattle.decide_nodes.specs.Traced.{IsNextCone};
ghost use Rattle.wave_proved.specs.Token.{HoldsNext, LineHolds, PairHolds};

use crate::blocks::{fill_block, number_blocks};
use crate::found::found_upto;
use crate::tries::pair_of_lane;
use base_lists::Memory;
use decide_nodes::{Cone, ConeLanes, LaneBits};
use law_model::Body;
use std::alloc::Global;
use wave_proved::{Verdict, Wave};

/// Whether the next place has so few sources that all their fillings are tried.
pub fn has_few_sources(wave: &Wave<'_>, cone: &Cone) -> bool
    ensures few { IsTrue result → length (sources_of cone.now.nodes) ≤ wave.now.limits.enumerated }
    ensures many { IsFalse result → wave.now.limits.enumerated < length (sources_of cone.now.nodes) }
{
    cone.sources().len() <= wave.limits().enumerated as usize
}

/// Decides the next place: every filling gives one bit, or the empty one gives one bit and another filling, which lists
/// as few sources as any, gives the other. Takes 32 bytes a node, and a filling.
pub fn decide(alloc: Global, wave: &Wave<'_>, cone: &Cone) -> Result<Verdict, Memory>
    requires cone { IsNextCone wave.now cone.now.nodes }
    requires few { length (sources_of cone.now.nodes) ≤ wave.now.limits.enumerated }
    ensures { IfOk result (IsDecision wave.now cone.now.nodes) }
{
    match least_other(alloc, cone)? {
        Some(number) => pair_of_number(alloc, wave, cone, number),
        None => Ok(Verdict::from_law(wave, Body::Enumerated(cone.base()))),
    }
}

/// The verdict that every filling gives the next place this bit, if each does. Takes 32 bytes a node.
pub fn check_bit(
    alloc: Global,
    wave: &Wave<'_>,
    cone: &Cone,
    bit: bool,
) -> Result<Option<Verdict>, Memory>
    requires cone { IsNextCone wave.now cone.now.nodes }
    requires few { length (sources_of cone.now.nodes) ≤ wave.now.limits.enumerated }
    ensures holds { IfOk result (λ found. IfSome found (LineHolds wave.now)) }
    ensures body { IfOk result (λ found. IfSome found (λ verdict. verdict.body ≡ Enumerated bit)) }
    ensures none { IfOk result (λ found. IfNone found (HoldsNext wave.now (Enumerated bit) → ⊥)) }
{
    match least_other(alloc, cone)? {
        Some(_) => Ok(None),
        None => Ok(verdict_if(wave, cone, bit)),
    }
}

/// The same where every filling gives the bit of the empty one.
fn verdict_if(wave: &Wave<'_>, cone: &Cone, bit: bool) -> Option<Verdict>
    requires cone { IsNextCone wave.now cone.now.nodes }
    requires law { HoldsNext wave.now (Enumerated (root_bit nothing cone.now.nodes)) }
    ensures holds { IfSome result (LineHolds wave.now) }
    ensures body { IfSome result (λ verdict. verdict.body ≡ Enumerated bit) }
    ensures none { IfNone result (HoldsNext wave.now (Enumerated bit) → ⊥) }
{
    if cone.base() == bit {
        Some(Verdict::from_law(wave, Body::Enumerated(bit)))
    } else {
        None
    }
}

/// The number of a filling that gives another bit than the empty one, and lists as few sources as any that does.
fn least_other(alloc: Global, cone: &Cone) -> Result<Option<usize>, Memory>
    requires { length (sources_of cone.now.nodes) ≤ 16 }
    ensures { IfOk result (IsFoundOfAll cone.now.nodes) }
{
    let mut lane_table = ConeLanes::new(alloc, cone)?;
    let mut found = None;
    'tries: for block in 0..number_blocks(cone.sources().len()) {
        found = found_upto(cone, &mut lane_table, block, found);
    }
    Ok(found)
}

/// The pair of the empty filling and that of a number.
fn pair_of_number(
    alloc: Global,
    wave: &Wave<'_>,
    cone: &Cone,
    number: usize,
) -> Result<Verdict, Memory>
    requires cone { IsNextCone wave.now cone.now.nodes }
    requires small { number < 2 ^ 16 }
    requires other { IsOther cone.now.nodes number }
    ensures holds { IfOk result (PairHolds wave.now) }
    ensures body { let other = chosen (sources_of cone.now.nodes) (number_bits number) in
        IfOk result (λ verdict. verdict.body ≡ pair_with (root_bit nothing cone.now.nodes) other) }
{
    let mut given = [LaneBits::zeros(); 16];
    fill_block(&mut given, number / 256);
    pair_of_lane(alloc, wave, cone, &given, (number % 256) as u32)
}
