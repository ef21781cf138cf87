//! The walk over the places, in pieces.

ghost use Rattle.std.specs.Prelude.{◌≡◌, ℕ, ◌<◌, ◌≤◌, ◌==◌, ◌⊎◌, IfOk, IfErr, IsFalse, IsTrue, length};
ghost use Rattle.design_circuit.specs.Circuit.{job_in};
ghost use Rattle.design_circuit.specs.Handed.{IsHandedIn};
ghost use Rattle.decide_repair.specs.Repaired.{IsOfJob, IsOnlyOne};
ghost use Rattle.decide_repair.specs.Step.{IsFurther, IsNextOf, RefusedStep};
ghost use Rattle.decide_repair.specs.Walk.{AreRightOf, HasLessLeft, all_of, count_of, left_of, start_of};
ghost use Rattle.law_along.specs.Along.{GoesAlong};
ghost use Rattle.wave_proved.specs.Advance.{IsAdvanced};
ghost use Rattle.wave_proved.specs.Contents.{IsFinished, AreLimits, IsWave, nothing_of};
ghost use Rattle.wave_proved.specs.Token.{IsLineNext};

use crate::aids::Aids;
use crate::finding::find;
use crate::refusal::RepairErr;
use base_lists::Memory;
use design_circuit::{Circuit, History, count_places};
use law_model::Limits;
use std::alloc::Global;
use std::marker::Model;
use wave_proved::Wave;

/// How many Line places `repair` writes at a time.
const PIECE: usize = 1024;

/// A finished wave of a job: every place written, each with its justification. `limits` say how its places are decided.
/// Takes the memory of the wave, of the lines and of lanes, and up to 64 megabytes for the answers of searches.
pub fn repair<'a>(
    alloc: Global,
    circuit: Circuit<'a>,
    replayed: &'a History,
    limits: Limits,
) -> Result<Wave<'a>, RepairErr>
    requires handed { IsHandedIn (job_in circuit) replayed.now }
    requires limits { AreLimits limits }
    ensures job { IfOk result (IsOfJob (nothing_of circuit.entry replayed.now limits)) }
    ensures along { IfOk result (GoesAlong (nothing_of circuit.entry replayed.now limits)) }
    ensures finished { IfOk result IsFinished }
    ensures sound { IfOk result IsWave }
    ensures only { IfOk result IsOnlyOne }
    ensures refused { IfErr result (RefusedStep (nothing_of circuit.entry replayed.now limits)) }
{
    let mut walk = Walk::new(alloc, circuit, replayed, limits)?;
    'pieces: while !walk.is_finished() {
        walk = walk.go_on(alloc, PIECE)?;
    }
    Ok(walk.into_wave())
}

/// A walk over the places of a job, in place order: the wave so far, and what helps to decide its next places.
/// Contracts see the wave, and the one that the walk began with.
#[derive(Drop)]
pub struct Walk<'a> {
    wave: Wave<'a>,
    aids: Aids,
}

impl<'a> Model for Walk<'a> {
    ghost use Rattle.decide_repair.specs.Walk.{IsWalk, WalkView, start_of};

    ghost Value = { WalkView };

    ghost view = { λ walk. record { start = start_of walk.wave; wave = walk.wave } };

    ghost invariant = { λ walk. IsWalk walk.wave walk.aids };
}

impl<'a> Walk<'a> {
    /// A walk of which nothing is written. Takes the memory of a wave.
    pub fn new(
        alloc: Global,
        circuit: Circuit<'a>,
        replayed: &'a History,
        limits: Limits,
    ) -> Result<Walk<'a>, Memory>
        requires handed { IsHandedIn (job_in circuit) replayed.now }
        requires limits { AreLimits limits }
        ensures { IfOk result (λ walk. walk.start ≡ nothing_of circuit.entry replayed.now limits) }
    {
        let wave = Wave::new(alloc, circuit, replayed, limits)?;
        wave.recall();
        let aids = Aids::new(alloc)?;
        Ok(Walk { wave, aids })
    }

    /// Writes up to so many Line places more, and all places up to the next one; or ends where the history knows a
    /// place otherwise, or for want of memory. Takes the memory of lines, of lanes, and of searches.
    pub fn go_on(self, alloc: Global, lines: usize) -> Result<Walk<'a>, RepairErr>
        requires { 0 < lines }
        ensures start { IfOk result (λ walk. walk.start ≡ self.entry.start) }
        ensures less { 0 < left_of self.entry → IfOk result (λ walk. left_of walk < left_of self.entry) }
        ensures refused { IfErr result (RefusedStep self.entry.start) }
    {
        let Walk { wave, mut aids } = self;
        match write_lines(alloc, wave, &mut aids, lines) {
            Ok(wave) => Ok(Walk { wave, aids }),
            Err(refusal) => Err(refusal),
        }
    }

    /// Whether every place is written.
    pub fn is_finished(&self) -> bool
        ensures { result ≡ (left_of self.now == 0) }
    {
        self.all() - self.count() == 0
    }

    /// How many places are written.
    pub fn count(&self) -> usize
        ensures count { result ≡ count_of self.now }
        ensures within { count_of self.now ≤ all_of self.now }
    {
        self.wave.count()
    }

    /// How many places the job has.
    pub fn all(&self) -> usize
        ensures { result ≡ all_of self.now }
    {
        count_places(&self.wave.circuit())
    }

    /// The wave of a finished walk.
    pub fn into_wave(self) -> Wave<'a>
        requires { left_of self ≡ 0 }
        ensures job { IsOfJob self.entry.start result }
        ensures along { GoesAlong self.entry.start result }
        ensures finished { IsFinished result }
        ensures sound { IsWave result }
        ensures only { IsOnlyOne result }
    {
        let Walk { wave, aids: _ } = self;
        wave
    }
}

/// Writes the places up to the next Line place, then up to so many Line places, each with the places after it up to the
/// next one.
#[tactic(auto, using(crate::proofs::Objecting::refused_along))]
fn write_lines<'a>(
    alloc: Global,
    wave: Wave<'a>,
    aids: &mut Aids,
    lines: usize,
) -> Result<Wave<'a>, RepairErr>
    requires some { 0 < lines }
    requires along { GoesAlong (start_of wave) wave }
    requires right { AreRightOf wave aids.old }
    ensures same { IfOk result (IsOfJob wave.entry) }
    ensures along { IfOk result (GoesAlong wave.entry) }
    ensures sound { IfOk result IsWave }
    ensures right { IfOk result (λ next. AreRightOf next aids.new) }
    ensures less { IfOk result (HasLessLeft wave.entry) }
    ensures err { IfErr result (RefusedStep wave.entry) }
{
    let all = count_places(&wave.circuit());
    let mut written = advance(wave)?;
    let mut left = lines;
    'lines: while is_open(&written, all, left) {
        written = write_next(alloc, written, aids)?;
        left -= 1;
    }
    Ok(written)
}

/// Whether a Line place more is to be written.
fn is_open(wave: &Wave<'_>, all: usize, left: usize) -> bool
    ensures more { IsTrue result → (0 < left) × (length wave.now.written < all) }
    ensures ends { IsFalse result → (left ≡ 0) ⊎ (all ≤ length wave.now.written) }
    ensures wave { IsWave wave.now }
{
    let written = wave.count();
    left > 0 && written < all
}

/// Writes the places up to the next Line place, whose classes say what they are.
fn advance<'a>(wave: Wave<'a>) -> Result<Wave<'a>, RepairErr>
    ensures ok { IfOk result (IsAdvanced wave.entry) }
    ensures along { IfOk result (GoesAlong wave.entry) }
    ensures same { IfOk result (IsOfJob wave.entry) }
    ensures err { IfErr result (RefusedStep wave.entry) }
{
    let next = wave.advance_to_line()?;
    Ok(next)
}

/// Writes the next place, a Line place, and those after it up to the next one.
fn write_next<'a>(alloc: Global, wave: Wave<'a>, aids: &mut Aids) -> Result<Wave<'a>, RepairErr>
    requires sound { IsWave wave }
    requires class { IsLineNext wave }
    requires along { GoesAlong (start_of wave) wave }
    requires right { AreRightOf wave aids.old }
    ensures ok { IfOk result (IsFurther wave.entry) }
    ensures along { IfOk result (GoesAlong wave.entry) }
    ensures right { IfOk result (λ next. AreRightOf next aids.new) }
    ensures err { IfErr result (RefusedStep wave.entry) }
{
    let decided = decide_next(alloc, wave, aids)?;
    decided.recall();
    advance(decided)
}

/// Decides the next place, a Line place, and writes it.
fn decide_next<'a>(alloc: Global, wave: Wave<'a>, aids: &mut Aids) -> Result<Wave<'a>, RepairErr>
    requires sound { IsWave wave }
    requires class { IsLineNext wave }
    requires along { GoesAlong (start_of wave) wave }
    requires right { AreRightOf wave aids.old }
    ensures ok { IfOk result (IsNextOf wave.entry) }
    ensures along { IfOk result (GoesAlong wave.entry) }
    ensures right { IfOk result (λ next. AreRightOf next aids.new) }
    ensures err { IfErr result (RefusedStep wave.entry) }
{
    let verdict = find(alloc, &wave, aids)?;
    let next = wave.write(verdict)?;
    Ok(next)
}
