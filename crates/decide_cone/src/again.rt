//! What is found again of the next place without its cone: that an earlier place rests on the same, or what tables say.

ghost use Rattle.std.specs.Prelude.{◌≡◌, IfOk, IsTrue, OnOk};
ghost use Rattle.decide_cone.specs.Cones.{AreRightOf};
ghost use Rattle.decide_lanes.specs.Lanes.{IsLookedAt, IsRightOf};
ghost use Rattle.decide_lanes.specs.Shown.{IsShownNext};
ghost use Rattle.law_model.specs.declared.line.Body.TheVariants.{Enumerated, Pair};
ghost use Rattle.wave_proved.specs.Contents.{Contents};
ghost use Rattle.wave_proved.specs.Token.{HoldsBare};

use crate::cones::Cones;
use base_lists::Memory;
use decide_lanes::{Lanes, Shown};
use design_circuit::{Filling, Place};
use law_model::Body;
use std::alloc::Global;
use wave_proved::Wave;

impl Cones {
    /// Whether just this body is found again of the next place, which was looked at: by an earlier place that rests on
    /// the same, or by tables. Of one with a log it isn't. Takes what `Lanes::find_equal` and `Lanes::find_shared` take.
    pub fn finds_again(
        &mut self,
        alloc: Global,
        wave: &Wave<'_>,
        body: &Body,
    ) -> Result<bool, Memory>
        requires right { AreRightOf wave.now self.old }
        requires looked { IsLookedAt wave.now self.old.lanes }
        ensures holds { IfOk result (λ found. IsTrue found → HoldsBare wave.now body.now) }
        ensures right { OnOk result (AreRightOf wave.now self.new) }
        ensures looked { OnOk result (IsLookedAt wave.now self.new.lanes) }
    {
        match body {
            Body::Enumerated(_) | Body::Pair(..) => find_again(alloc, wave, &mut self.lanes, body),
            Body::Refuted(..) | Body::Undecided(_) => Ok(false),
        }
    }
}

/// The same in lanes.
fn find_again(
    alloc: Global,
    wave: &Wave<'_>,
    lanes: &mut Lanes,
    body: &Body,
) -> Result<bool, Memory>
    requires right { IsRightOf wave.now lanes.old }
    requires looked { IsLookedAt wave.now lanes.old }
    ensures holds { IfOk result (λ found. IsTrue found → HoldsBare wave.now body.now) }
    ensures right { OnOk result (IsRightOf wave.now lanes.new) }
    ensures looked { OnOk result (IsLookedAt wave.now lanes.new) }
{
    let equal = lanes.find_equal(alloc, wave)?;
    if has_body(equal, body) {
        return Ok(true);
    }
    let shared = lanes.find_shared(alloc, wave)?;
    Ok(has_body(shared, body))
}

/// Whether a verdict with this body is shown.
fn has_body(shown: Shown, body: &Body) -> bool
    ensures { (c : Contents) → IsShownNext c shown → IsTrue result → HoldsBare c body.now }
{
    match shown {
        Shown::Verdict(verdict) => is_same(&verdict.into_body(), body),
        Shown::Earlier(_) | Shown::Nothing => false,
    }
}

/// Whether two bodies without logs are the same.
fn is_same(found: &Body, stated: &Body) -> bool
    ensures { IsTrue result → found.now ≡ stated.now }
{
    match found {
        Body::Enumerated(bit) => is_enumerated(stated, *bit),
        Body::Pair(zero, one) => is_pair(stated, zero, one),
        Body::Refuted(..) | Body::Undecided(_) => false,
    }
}

fn is_enumerated(body: &Body, bit: bool) -> bool
    ensures { IsTrue result → body.now ≡ Enumerated bit }
{
    match body {
        Body::Enumerated(other) => *other == bit,
        Body::Pair(..) | Body::Refuted(..) | Body::Undecided(_) => false,
    }
}

fn is_pair(body: &Body, zero: &Filling, one: &Filling) -> bool
    ensures { IsTrue result → body.now ≡ Pair zero.now one.now }
{
    match body {
        Body::Pair(first, second) => {
            are_same(first.as_slice(), zero.as_slice())
                && are_same(second.as_slice(), one.as_slice())
        }
        Body::Enumerated(_) | Body::Refuted(..) | Body::Undecided(_) => false,
    }
}

fn are_same(first: &[Place], second: &[Place]) -> bool
    ensures { IsTrue result → first.now ≡ second.now }
{
    first == second
}
