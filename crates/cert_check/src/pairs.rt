//! Two fillings that a line states.

ghost use Rattle.std.specs.Prelude.{◌↔◌, IfNone, IfOk, IfSome, IsTrue};
ghost use Rattle.decide_nodes.specs.Traced.{IsNextCone};
ghost use Rattle.design_circuit.specs.Circuit.{job_in};
ghost use Rattle.design_circuit.specs.Filling.{IsFilling};
ghost use Rattle.law_model.specs.declared.line.Body.TheVariants as body;
ghost use Rattle.wave_proved.specs.Contents.{job};
ghost use Rattle.cert_check.specs.Step.{IsVerdictOf, RefusesBody};

use base_lists::Memory;
use cert_turns::Cone;
use decide_pair::{BadPair, check_pair};
use design_circuit::{Circuit, Filling, is_filling};
use std::alloc::Global;
use wave_proved::{Verdict, Wave};

/// The verdict of two fillings, where the body that states them is accepted. Takes 32 bytes a node of the cone.
pub fn pair_verdict(
    alloc: Global,
    wave: &Wave<'_>,
    cone: &Cone,
    zero: Filling,
    one: Filling,
) -> Result<Option<Verdict>, Memory>
    requires { IsNextCone wave.now cone.now.nodes }
    ensures verdict { IfOk result (λ found. IfSome found (IsVerdictOf wave.now (body.Pair zero one))) }
    ensures none { IfOk result (λ found. IfNone found (RefusesBody wave.now (body.Pair zero one))) }
{
    if are_fillings(&wave.circuit(), &zero, &one) {
        filled_verdict(alloc, wave, cone, zero, one)
    } else {
        Ok(None)
    }
}

/// Whether both lists of places are fillings of the job.
pub fn are_fillings(circuit: &Circuit<'_>, zero: &Filling, one: &Filling) -> bool
    ensures { IsTrue result ↔ (IsFilling (job_in circuit.now) zero.now × IsFilling (job_in circuit.now) one.now) }
{
    is_filling(circuit, zero.as_slice()) && is_filling(circuit, one.as_slice())
}

fn filled_verdict(
    alloc: Global,
    wave: &Wave<'_>,
    cone: &Cone,
    zero: Filling,
    one: Filling,
) -> Result<Option<Verdict>, Memory>
    requires cone { IsNextCone wave.now cone.now.nodes }
    requires zero { IsFilling (job wave.now) zero }
    requires one { IsFilling (job wave.now) one }
    ensures verdict { IfOk result (λ found. IfSome found (IsVerdictOf wave.now (body.Pair zero one))) }
    ensures none { IfOk result (λ found. IfNone found (RefusesBody wave.now (body.Pair zero one))) }
{
    match check_pair(alloc, wave, cone, zero, one) {
        Ok(verdict) => Ok(Some(verdict)),
        Err(BadPair::NotZero) => Ok(None),
        Err(BadPair::NotOne) => Ok(None),
        Err(BadPair::Memory) => Err(Memory),
    }
}
