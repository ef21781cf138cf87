//! One line of a Line place, taken where no turn is due.

ghost use Rattle.std.specs.Prelude.{◌≡◌, ◌↔◌, ℕ, IfErr, IfNone, IfOk, IfSome, IsTrue, OnOk, None as ANone, true};
ghost use Rattle.cert_turns.specs.OfCone.{AreRightOf};
ghost use Rattle.decide_nodes.specs.Traced.{IsNextCone};
ghost use Rattle.wave_proved.specs.Advance.{IsAdvanced, IsObjected, IsPlain};
ghost use Rattle.wave_proved.specs.Contents.{IsWave, next_seen};
ghost use Rattle.wave_proved.specs.Token.{HoldsBare, IsLineNext};
ghost use Rattle.law_along.specs.Accepted.{AcceptsLine, NamesNext};
ghost use Rattle.cert_turns.specs.Conditions as turns;
ghost use Rattle.cert_writer.specs.declared.cert.Entry.TheVariants.{Line as ALine};
ghost use Rattle.cert_writer.specs.declared.cert.Form.TheVariants.{Turns};
ghost use Rattle.cert_check.specs.Standing.{ComesFrom, EndsFrom, IsRight, IsWaiting, StopsAt, Takes};
ghost use Rattle.cert_check.specs.Step.{IsSpent, IsVerdictOf, RefusesBody, Stops};

use crate::bodies::{body_verdict, fault_of};
use crate::due::{Due, due_of};
use crate::refusal::{CertFault, CheckErr};
use crate::told::do_tell;
use crate::turned::begin_turns;
use crate::walk::missing;
use crate::walked::{Course, Walked};
use base_lists::Memory;
use cert_turns::{Cone, Cones};
use cert_writer::Form;
use design_circuit::count_places;
use law_model::{Body, Line};
use std::alloc::Global;
use wave_proved::{Verdict, Wave};

/// Takes a line where the walk waits for one.
pub fn take_line<'a>(
    alloc: Global,
    form: Form,
    course: Course<'a>,
    line: Line,
    number: usize,
) -> Result<Walked<'a>, CheckErr>
    requires stops { IsPlain (next_seen course.wave) → ⊥ }
    requires right { IsRight course }
    ensures ok { let old = course.entry in
        IfOk result (Takes form old.wave old.conditions.items ANone (ALine line)) }
    ensures waits { IfOk result IsWaiting }
    ensures err { let old = course.entry in
        IfErr result (StopsAt form number old.wave old.conditions.items ANone (ALine line)) }
{
    if course.wave.count() >= count_places(&course.wave.circuit()) {
        return Err(CheckErr::Refused(CertFault::Stray { line: number }));
    }
    match due_of(&course.wave, &line) {
        Due::Here => take_next(alloc, form, course, line, number),
        Due::Later => Err(missing(&course.wave)),
        Due::Astray => Err(CheckErr::Refused(CertFault::Stray { line: number })),
    }
}

/// Writes the next place by its line. Then its turns are due, where it has some, or else the places after it are
/// written, up to the next Line place.
fn take_next<'a>(
    alloc: Global,
    form: Form,
    course: Course<'a>,
    line: Line,
    number: usize,
) -> Result<Walked<'a>, CheckErr>
    requires wave { IsWave course.wave }
    requires class { IsLineNext course.wave }
    requires names { NamesNext course.wave line }
    requires right { IsRight course }
    ensures ok { let old = course.entry in
        IfOk result (Takes form old.wave old.conditions.items ANone (ALine line)) }
    ensures waits { IfOk result IsWaiting }
    ensures err { let old = course.entry in
        IfErr result (StopsAt form number old.wave old.conditions.items ANone (ALine line)) }
{
    let turned = has_turns(form, &line.body);
    let place = line.place;
    let Course {
        wave,
        conditions,
        mut cones,
    } = course;
    match spend_line(alloc, wave, &mut cones, line, number) {
        Ok(spent) => {
            spent.recall();
            let next = Course {
                wave: spent,
                conditions,
                cones,
            };
            if turned {
                begin_turns(alloc, next, place)
            } else {
                walk_on(next)
            }
        }
        Err(refusal) => Err(refusal),
    }
}

/// Whether turns belong to a line: in form 2, where it gives a bit.
fn has_turns(form: Form, body: &Body) -> bool
    ensures { IsTrue result ↔ ((form ≡ Turns) × (turns.gives_bit body.now ≡ true)) }
{
    match form {
        Form::Lines => false,
        Form::Turns => gives_bit(body),
    }
}

/// Whether a line with this body gives a bit.
pub fn gives_bit(body: &Body) -> bool
    ensures { result ≡ turns.gives_bit body.now }
{
    match body {
        Body::Enumerated(_) | Body::Refuted(..) => true,
        Body::Pair(..) | Body::Undecided(_) => false,
    }
}

/// Writes the places up to the next Line place, whose classes say what they are.
pub fn walk_on<'a>(course: Course<'a>) -> Result<Walked<'a>, CheckErr>
    requires { IsRight course }
    ensures ok { IfOk result (ComesFrom course.entry.wave course.entry.conditions.items) }
    ensures waits { IfOk result IsWaiting }
    ensures err { IfErr result (EndsFrom course.entry.wave course.entry.conditions.items) }
{
    let Course {
        wave,
        conditions,
        cones,
    } = course;
    wave.recall();
    let next = wave.advance_to_line()?;
    Ok(Walked {
        course: Course {
            wave: next,
            conditions,
            cones,
        },
        under_way: None,
    })
}

/// Writes the next place by its line.
pub fn spend_line<'a>(
    alloc: Global,
    wave: Wave<'a>,
    cones: &mut Cones,
    line: Line,
    number: usize,
) -> Result<Wave<'a>, CheckErr>
    requires wave { IsWave wave }
    requires class { IsLineNext wave }
    requires names { NamesNext wave line }
    requires right { AreRightOf wave cones.old }
    ensures ok { IfOk result (IsSpent wave.entry line) }
    ensures right { IfOk result (λ next. AreRightOf next cones.new) }
    ensures err { IfErr result (Stops wave.entry number line) }
{
    let fault = fault_of(&line.body, number);
    match line_verdict(alloc, &wave, cones, line.body) {
        Ok(Some(verdict)) => spend(wave, verdict),
        Ok(None) => Err(CheckErr::Refused(fault)),
        Err(_) => Err(CheckErr::Memory),
    }
}

/// Writes the next place by a verdict, or gives the wave up where the history knows it otherwise.
fn spend<'a>(wave: Wave<'a>, verdict: Verdict) -> Result<Wave<'a>, CheckErr>
    requires class { IsLineNext wave }
    requires accepts { AcceptsLine wave verdict }
    ensures ok { IfOk result (IsSpent wave.entry verdict) }
    ensures err { (number : ℕ) → IfErr result (Stops wave.entry number verdict) }
{
    let next = wave.write(verdict)?;
    Ok(next)
}

/// The verdict with a body, where that is accepted at the next place: by lanes, where they tell that two fillings are a
/// pair; where it is found again; or else by its cone.
fn line_verdict(
    alloc: Global,
    wave: &Wave<'_>,
    cones: &mut Cones,
    body: Body,
) -> Result<Option<Verdict>, Memory>
    requires class { IsLineNext wave.now }
    requires right { AreRightOf wave.now cones.old }
    ensures right { OnOk result (AreRightOf wave.now cones.new) }
    ensures verdict { IfOk result (λ found. IfSome found (IsVerdictOf wave.now body)) }
    ensures none { IfOk result (λ found. IfNone found (RefusesBody wave.now body)) }
{
    match cone_for(alloc, wave, cones, &body)? {
        Some(cone) => body_verdict(alloc, wave, &cone, body),
        None => Ok(Some(Verdict::from_law(wave, body))),
    }
}

/// The cone of the next place, a Line place, unless lanes tell that a body holds there, or it is found again.
fn cone_for(
    alloc: Global,
    wave: &Wave<'_>,
    cones: &mut Cones,
    body: &Body,
) -> Result<Option<Cone>, Memory>
    requires class { IsLineNext wave.now }
    requires right { AreRightOf wave.now cones.old }
    ensures right { OnOk result (AreRightOf wave.now cones.new) }
    ensures cone { IfOk result (λ found. IfSome found (λ cone. IsNextCone wave.now cone.nodes)) }
    ensures told { IfOk result (λ found. IfNone found (HoldsBare wave.now body.now)) }
{
    cones.lanes.look(alloc, wave)?;
    if do_tell(alloc, wave, &cones.lanes, body)? {
        return Ok(None);
    }
    if cones.finds_again(alloc, wave, body)? {
        return Ok(None);
    }
    let cone = cones.cone(alloc, wave)?;
    Ok(Some(cone))
}
