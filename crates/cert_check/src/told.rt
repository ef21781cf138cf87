//! Bodies that lanes tell to hold at the next place, without its cone.

ghost use Rattle.std.specs.Prelude.{IfOk, IsTrue};
ghost use Rattle.cert_turns.specs.OfCone.{IsLookedAt, IsRightOf};
ghost use Rattle.law_model.specs.declared.line.Body.TheVariants as body;
ghost use Rattle.wave_proved.specs.Token.{HoldsBare, HoldsNext};

use crate::pairs::are_fillings;
use base_lists::Memory;
use cert_turns::Lanes;
use design_circuit::Filling;
use law_model::Body;
use std::alloc::Global;
use wave_proved::Wave;

/// Whether lanes tell that a body holds at the next place, which was looked at: where it states two fillings that lanes
/// have of its sources, and these give it 0 and 1.
pub fn do_tell(alloc: Global, wave: &Wave<'_>, lanes: &Lanes, body: &Body) -> Result<bool, Memory>
    requires right { IsRightOf wave.now lanes.now }
    requires looked { IsLookedAt wave.now lanes.now }
    ensures { IfOk result (λ told. IsTrue told → HoldsBare wave.now body.now) }
{
    match body {
        Body::Pair(zero, one) => are_told(alloc, wave, lanes, zero, one),
        Body::Enumerated(_) | Body::Refuted(..) | Body::Undecided(_) => Ok(false),
    }
}

/// The same of two fillings. Where no two lanes differ there, none of them is looked for.
fn are_told(
    alloc: Global,
    wave: &Wave<'_>,
    lanes: &Lanes,
    zero: &Filling,
    one: &Filling,
) -> Result<bool, Memory>
    requires right { IsRightOf wave.now lanes.now }
    requires looked { IsLookedAt wave.now lanes.now }
    ensures { IfOk result (λ told. IsTrue told → HoldsNext wave.now (body.Pair zero.now one.now)) }
{
    if lanes.pair(wave).is_none() || !are_fillings(&wave.circuit(), zero, one) {
        return Ok(false);
    }
    Ok(
        lanes.bit(alloc, wave, zero.as_slice())? == Some(false)
            && lanes.bit(alloc, wave, one.as_slice())? == Some(true),
    )
}
