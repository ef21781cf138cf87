//! Two fillings that are claimed to be a pair.

ghost use Rattle.std.specs.Prelude.{◌≡◌, IfErr, IfOk};
ghost use Rattle.design_circuit.specs.Filling.{IsFilling};
ghost use Rattle.decide_nodes.specs.OfWave.{LineHolds, job};
ghost use Rattle.law_model.specs.declared.line.Body.TheVariants.{Pair};
ghost use Rattle.decide_pair.specs.Pairs.{IsRefusal};
ghost use Rattle.decide_nodes.specs.Traced.{IsNextCone};

use base_lists::Memory;
use decide_nodes::{Cone, Verdict, Wave};
use design_circuit::Filling;
use law_model::Body;
use std::alloc::Global;

/// Why two fillings are no pair.
#[derive(Clone, Copy, Debug, PartialEq, Eq)]
pub enum BadPair {
    /// The first gives 1.
    NotZero,
    /// The first gives 0, and so does the second.
    NotOne,
    /// There was no memory.
    Memory,
}

impl From<Memory> for BadPair {
    ghost use Rattle.decide_pair.specs.declared.check.BadPair.TheVariants.{Memory as OutOfMemory};

    ghost from_gives = { λ _ refusal. refusal ≡ OutOfMemory };

    fn from(_: Memory) -> Self {
        BadPair::Memory
    }
}

/// The verdict of the next place, where the world of the first filling gives 0 there and that of the second gives 1.
/// Takes 32 bytes a node and a source of the cone, and a set of a filling's places.
pub fn check_pair(
    alloc: Global,
    wave: &Wave<'_>,
    cone: &Cone,
    zero: Filling,
    one: Filling,
) -> Result<Verdict, BadPair>
    requires cone { IsNextCone wave.now cone.now.nodes }
    requires zero { IsFilling (job wave.now) zero }
    requires one { IsFilling (job wave.now) one }
    ensures holds { IfOk result (LineHolds wave.now) }
    ensures body { IfOk result (λ verdict. verdict.body ≡ Pair zero one) }
    ensures refusal { IfErr result (IsRefusal wave.now zero one) }
{
    if cone.value(alloc, &zero)? {
        return Err(BadPair::NotZero);
    }
    if !cone.value(alloc, &one)? {
        return Err(BadPair::NotOne);
    }
    Ok(Verdict::from_law(wave, Body::Pair(zero, one)))
}
