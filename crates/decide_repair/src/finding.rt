//! What the next place, a Line place, has under all fillings: the ways in which its verdict is found, in the order in
//! which they are tried.

ghost use Rattle.std.specs.Prelude.{IfOk, IfSome, OnOk};
ghost use Rattle.law_along.specs.Accepted.{AcceptsLine};
ghost use Rattle.law_along.specs.Along.{GoesAlong};
ghost use Rattle.decide_cone.specs.Lanes.{IsLookedAt};
ghost use Rattle.decide_repair.specs.Walk.{AreRightOf, start_of};
ghost use Rattle.wave_proved.specs.Token.{IsLineNext};

use crate::aids::Aids;
use crate::earlier::find_by_log;
use crate::fillings::try_fillings;
use crate::guessed::find_guessed;
use crate::pooled::find_pooled;
use crate::search::search;
use base_lists::Memory;
use decide_cone::Shown;
use decide_pair::{decide, has_few_sources};
use std::alloc::Global;
use wave_proved::{Verdict, Wave};

/// The verdict of the next place. Tables come before a guess, since that reads a node again for each place, and tables
/// once.
pub fn find(alloc: Global, wave: &Wave<'_>, aids: &mut Aids) -> Result<Verdict, Memory>
    requires class { IsLineNext wave.now }
    requires along { GoesAlong (start_of wave.now) wave.now }
    requires right { AreRightOf wave.now aids.old }
    ensures accepts { IfOk result (AcceptsLine wave.now) }
    ensures right { OnOk result (AreRightOf wave.now aids.new) }
{
    aids.cones.lanes.look(alloc, wave)?;
    if let Some(verdict) = find_by_lanes(alloc, wave, aids)? {
        return Ok(verdict);
    }
    if let Some(verdict) = find_by_equal(alloc, wave, aids)? {
        return Ok(verdict);
    }
    if let Some(verdict) = find_by_tables(alloc, wave, aids)? {
        return Ok(verdict);
    }
    if let Some(verdict) = find_by_pool(alloc, wave, aids)? {
        return Ok(verdict);
    }
    if let Some(verdict) = find_by_guess(alloc, wave, aids)? {
        return Ok(verdict);
    }
    find_by_cone(alloc, wave, aids)
}

/// By two lanes that differ there.
#[tactic(auto, using(crate::proofs::Searching::pair_accepted))]
fn find_by_lanes(alloc: Global, wave: &Wave<'_>, aids: &mut Aids) -> Result<Option<Verdict>, Memory>
    requires class { IsLineNext wave.now }
    requires right { AreRightOf wave.now aids.old }
    requires looked { IsLookedAt wave.now aids.old.cones.lanes }
    ensures accepts { IfOk result (λ found. IfSome found (AcceptsLine wave.now)) }
    ensures right { OnOk result (AreRightOf wave.now aids.new) }
    ensures looked { OnOk result (IsLookedAt wave.now aids.new.cones.lanes) }
{
    aids.cones.lanes.find(alloc, wave)
}

/// By an earlier place that rests on the same: by what it is, or by the log of its line.
#[tactic(auto, using(crate::proofs::Searching::simple_accepted))]
fn find_by_equal(alloc: Global, wave: &Wave<'_>, aids: &mut Aids) -> Result<Option<Verdict>, Memory>
    requires class { IsLineNext wave.now }
    requires along { GoesAlong (start_of wave.now) wave.now }
    requires right { AreRightOf wave.now aids.old }
    requires looked { IsLookedAt wave.now aids.old.cones.lanes }
    ensures accepts { IfOk result (λ found. IfSome found (AcceptsLine wave.now)) }
    ensures right { OnOk result (AreRightOf wave.now aids.new) }
    ensures looked { OnOk result (IsLookedAt wave.now aids.new.cones.lanes) }
{
    match aids.cones.lanes.find_equal(alloc, wave)? {
        Shown::Verdict(verdict) => Ok(Some(verdict)),
        Shown::Earlier(place) => find_by_log(alloc, wave, place),
        Shown::Nothing => Ok(None),
    }
}

/// By the tables that nodes share over few sources.
#[tactic(auto, using(crate::proofs::Searching::simple_accepted))]
fn find_by_tables(
    alloc: Global,
    wave: &Wave<'_>,
    aids: &mut Aids,
) -> Result<Option<Verdict>, Memory>
    requires class { IsLineNext wave.now }
    requires right { AreRightOf wave.now aids.old }
    requires looked { IsLookedAt wave.now aids.old.cones.lanes }
    ensures accepts { IfOk result (λ found. IfSome found (AcceptsLine wave.now)) }
    ensures right { OnOk result (AreRightOf wave.now aids.new) }
    ensures looked { OnOk result (IsLookedAt wave.now aids.new.cones.lanes) }
{
    match aids.cones.lanes.find_shared(alloc, wave)? {
        Shown::Verdict(verdict) => Ok(Some(verdict)),
        Shown::Earlier(_) => Ok(None),
        Shown::Nothing => Ok(None),
    }
}

/// By a lane of the pool, if a test shows that it is right.
fn find_by_pool(alloc: Global, wave: &Wave<'_>, aids: &mut Aids) -> Result<Option<Verdict>, Memory>
    requires class { IsLineNext wave.now }
    requires right { AreRightOf wave.now aids.old }
    requires looked { IsLookedAt wave.now aids.old.cones.lanes }
    ensures accepts { IfOk result (λ found. IfSome found (AcceptsLine wave.now)) }
    ensures right { OnOk result (AreRightOf wave.now aids.new) }
    ensures looked { OnOk result (IsLookedAt wave.now aids.new.cones.lanes) }
{
    find_pooled(alloc, wave, &mut aids.cones, &mut aids.pool)
}

/// By a guess, if a test shows that it is right.
fn find_by_guess(alloc: Global, wave: &Wave<'_>, aids: &mut Aids) -> Result<Option<Verdict>, Memory>
    requires class { IsLineNext wave.now }
    requires right { AreRightOf wave.now aids.old }
    requires looked { IsLookedAt wave.now aids.old.cones.lanes }
    ensures accepts { IfOk result (λ found. IfSome found (AcceptsLine wave.now)) }
    ensures right { OnOk result (AreRightOf wave.now aids.new) }
    ensures looked { OnOk result (IsLookedAt wave.now aids.new.cones.lanes) }
{
    find_guessed(
        alloc,
        wave,
        &mut aids.cones,
        &mut aids.pool,
        &mut aids.guesser,
    )
}

/// By its cone: by all fillings of few sources, or else by random ones, or by a search on its query.
#[tactic(auto, using(crate::proofs::Searching::decision_accepted, crate::proofs::Searching::pair_accepted))]
fn find_by_cone(alloc: Global, wave: &Wave<'_>, aids: &mut Aids) -> Result<Verdict, Memory>
    requires class { IsLineNext wave.now }
    requires right { AreRightOf wave.now aids.old }
    requires looked { IsLookedAt wave.now aids.old.cones.lanes }
    ensures accepts { IfOk result (AcceptsLine wave.now) }
    ensures right { OnOk result (AreRightOf wave.now aids.new) }
{
    let cone = aids.cones.cone(alloc, wave)?;
    if has_few_sources(wave, &cone) {
        return decide(alloc, wave, &cone);
    }
    if let Some(verdict) = try_fillings(alloc, wave, &cone)? {
        return Ok(verdict);
    }
    search(alloc, wave, &mut aids.answers, &cone)
}
