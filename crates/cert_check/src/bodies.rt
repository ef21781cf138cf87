//! The body of a line, checked at the next place by its cone.

ghost use Rattle.std.specs.Prelude.{◌≡◌, IfNone, IfOk, IfSome};
ghost use Rattle.decide_nodes.specs.Traced.{IsNextCone};
ghost use Rattle.law_model.specs.declared.line.Body.TheVariants as body;
ghost use Rattle.cert_check.specs.Step.{IsVerdictOf, RefusesBody};
ghost use Rattle.cert_check.specs.Walk.{body_fault};

use crate::logs::{exhausted_verdict, refuted_verdict};
use crate::pairs::pair_verdict;
use crate::refusal::CertFault;
use base_lists::Memory;
use cert_turns::Cone;
use decide_pair::{check_bit, has_few_sources};
use law_model::Body;
use std::alloc::Global;
use wave_proved::{Verdict, Wave};

/// The verdict with a body, where that is accepted at the next place.
pub fn body_verdict(
    alloc: Global,
    wave: &Wave<'_>,
    cone: &Cone,
    body: Body,
) -> Result<Option<Verdict>, Memory>
    requires { IsNextCone wave.now cone.now.nodes }
    ensures verdict { IfOk result (λ found. IfSome found (IsVerdictOf wave.now body)) }
    ensures none { IfOk result (λ found. IfNone found (RefusesBody wave.now body)) }
{
    match body {
        Body::Enumerated(bit) => enumerated_verdict(alloc, wave, cone, bit),
        Body::Refuted(bit, log) => refuted_verdict(alloc, wave, cone, bit, log),
        Body::Pair(zero, one) => pair_verdict(alloc, wave, cone, zero, one),
        Body::Undecided(log) => exhausted_verdict(alloc, wave, cone, log),
    }
}

/// The fault of a line with this body, which isn't accepted.
pub fn fault_of(body: &Body, line: usize) -> CertFault
    ensures { result ≡ body_fault line body.now }
{
    match body {
        Body::Enumerated(_) => CertFault::BadEnum { line },
        Body::Refuted(_, _) => CertFault::BadLog { line },
        Body::Pair(_, _) => CertFault::BadPair { line },
        Body::Undecided(_) => CertFault::BadLog { line },
    }
}

/// The verdict that every filling of few sources gives the bit.
fn enumerated_verdict(
    alloc: Global,
    wave: &Wave<'_>,
    cone: &Cone,
    bit: bool,
) -> Result<Option<Verdict>, Memory>
    requires { IsNextCone wave.now cone.now.nodes }
    ensures verdict { IfOk result (λ found. IfSome found (IsVerdictOf wave.now (body.Enumerated bit))) }
    ensures none { IfOk result (λ found. IfNone found (RefusesBody wave.now (body.Enumerated bit))) }
{
    if !has_few_sources(wave, cone) {
        return Ok(None);
    }
    match check_bit(alloc, wave, cone, bit)? {
        Some(verdict) => Ok(Some(verdict)),
        None => Ok(None),
    }
}
