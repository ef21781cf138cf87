//! What the log of an earlier place shows of the next one, where both ask the same.

ghost use Rattle.std.specs.Prelude.{IfOk, IfSome};
ghost use Rattle.law_along.specs.Accepted.{AcceptsBody, AcceptsLine};
ghost use Rattle.law_along.specs.Along.{GoesAlong};
ghost use Rattle.decide_cone.specs.Shown.{HasNextCone};
ghost use Rattle.law_model.specs.declared.line.Body.TheVariants.{Refuted, Undecided};
ghost use Rattle.decide_repair.specs.Walk.{start_of};
ghost use Rattle.wave_proved.specs.Token.{HasNext, IsLineNext};

use crate::copies::copied;
use crate::lines::body_of;
use base_lists::Memory;
use law_model::Body;
use sat_proof::Log;
use std::alloc::Global;
use wave_proved::{Verdict, Wave};

/// What the log of a written place shows of the next one, if its line has a log. Takes the memory of the log.
pub fn find_by_log(alloc: Global, wave: &Wave<'_>, place: usize) -> Result<Option<Verdict>, Memory>
    requires class { IsLineNext wave.now }
    requires along { GoesAlong (start_of wave.now) wave.now }
    requires cone { HasNextCone wave.now place }
    ensures { IfOk result (λ found. IfSome found (AcceptsLine wave.now)) }
{
    wave.recall();
    match body_of(wave, place) {
        Some(Body::Refuted(bit, log)) => Ok(Some(refuted_again(alloc, wave, *bit, log)?)),
        Some(Body::Undecided(log)) => Ok(Some(left_again(alloc, wave, log)?)),
        Some(Body::Enumerated(_)) => Ok(None),
        Some(Body::Pair(_, _)) => Ok(None),
        None => Ok(None),
    }
}

/// The verdict of a copy of a log that refutes.
fn refuted_again(alloc: Global, wave: &Wave<'_>, bit: bool, log: &Log) -> Result<Verdict, Memory>
    requires next { HasNext wave.now }
    requires accepted { AcceptsBody wave.now (Refuted bit log.now) }
    ensures { IfOk result (AcceptsLine wave.now) }
{
    let copy = Log::from_vec(copied(alloc, log.as_slice())?);
    Ok(Verdict::from_law(wave, Body::Refuted(bit, copy)))
}

/// That of a copy of a fresh log.
fn left_again(alloc: Global, wave: &Wave<'_>, log: &Log) -> Result<Verdict, Memory>
    requires next { HasNext wave.now }
    requires accepted { AcceptsBody wave.now (Undecided log.now) }
    ensures { IfOk result (AcceptsLine wave.now) }
{
    let copy = Log::from_vec(copied(alloc, log.as_slice())?);
    Ok(Verdict::from_law(wave, Body::Undecided(copy)))
}
