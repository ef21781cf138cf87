//! The turns behind the line of a certain place.

ghost use Rattle.std.specs.Prelude.{◌≡◌, ◌<◌, [], IfErr, IfOk, OnOk, Some as ASome};
ghost use Rattle.cert_turns.specs.Conditions.{IsCertainLine, IsConditionAt};
ghost use Rattle.cert_turns.specs.OfCone.{AreRightOf};
ghost use Rattle.cert_writer.specs.declared.cert.Form.{Form as AForm};
ghost use Rattle.cert_check.specs.Standing.{ComesAmid, ComesBehind, EndsAmid, EndsBehind, IsRight, IsWaiting};
ghost use Rattle.cert_check.specs.Standing.{StopsAt, Takes};

use crate::lines::walk_on;
use crate::refusal::{CertFault, CheckErr};
use crate::walked::{Course, Walked};
use base_lists::Memory;
use cert_turns::{Condition, Cones, begin_at, take_turn};
use cert_writer::Entry;
use design_circuit::Place;
use std::alloc::Global;
use wave_proved::Wave;

/// Takes a line where a turn is due.
pub fn take_turned<'a>(
    alloc: Global,
    course: Course<'a>,
    condition: Condition,
    entry: Entry,
    number: usize,
) -> Result<Walked<'a>, CheckErr>
    requires due { 0 < condition.due }
    requires right { IsRight course }
    ensures ok { (form : AForm) → let old = course.entry in
        IfOk result (Takes form old.wave old.conditions.items (ASome condition) entry) }
    ensures waits { IfOk result IsWaiting }
    ensures err { (form : AForm) → let old = course.entry in
        IfErr result (StopsAt form number old.wave old.conditions.items (ASome condition) entry) }
{
    let Entry::Turn(line) = entry else {
        return Err(CheckErr::Refused(CertFault::BadTurn { line: number }));
    };
    match take_turn(alloc, condition, line) {
        Ok(Some(next)) => take_up(course, next),
        Ok(None) => Err(CheckErr::Refused(CertFault::BadTurn { line: number })),
        Err(_) => Err(CheckErr::Memory),
    }
}

/// The turns of a place are due, the last one that is written.
pub fn begin_turns<'a>(
    alloc: Global,
    course: Course<'a>,
    place: Place,
) -> Result<Walked<'a>, CheckErr>
    requires settled { IsCertainLine course.wave place }
    requires right { IsRight course }
    ensures ok { IfOk result (ComesBehind course.entry.wave course.entry.conditions.items place) }
    ensures waits { IfOk result IsWaiting }
    ensures err { IfErr result (EndsBehind course.entry.wave course.entry.conditions.items place) }
{
    let Course {
        wave,
        conditions,
        mut cones,
    } = course;
    match begin_with(alloc, &wave, &mut cones, place) {
        Ok(condition) => {
            let next = Course {
                wave,
                conditions,
                cones,
            };
            take_up(next, condition)
        }
        Err(_) => Err(CheckErr::Memory),
    }
}

/// The condition of the place, with no turn made.
fn begin_with(
    alloc: Global,
    wave: &Wave<'_>,
    cones: &mut Cones,
    place: Place,
) -> Result<Condition, Memory>
    requires settled { IsCertainLine wave.now place }
    requires right { AreRightOf wave.now cones.old }
    ensures condition { IfOk result (IsConditionAt wave.now place) }
    ensures none { IfOk result (λ condition. condition.turns ≡ []) }
    ensures right { OnOk result (AreRightOf wave.now cones.new) }
{
    begin_at(alloc, wave, &mut cones.tracer, place)
}

/// Waits for the next turn of a condition, or goes on where none is due.
fn take_up<'a>(course: Course<'a>, condition: Condition) -> Result<Walked<'a>, CheckErr>
    requires { IsRight course }
    ensures ok { IfOk result (ComesAmid course.entry.wave course.entry.conditions.items condition) }
    ensures waits { IfOk result IsWaiting }
    ensures err { IfErr result (EndsAmid course.entry.wave course.entry.conditions.items condition) }
{
    if condition.turns_due() == 0 {
        return close(course, condition);
    }
    Ok(Walked {
        course,
        under_way: Some(condition),
    })
}

/// All turns of a condition are made: it stands with the others.
fn close<'a>(course: Course<'a>, condition: Condition) -> Result<Walked<'a>, CheckErr>
    requires none_due { condition.due ≡ 0 }
    requires right { IsRight course }
    ensures ok { IfOk result (ComesAmid course.entry.wave course.entry.conditions.items condition) }
    ensures waits { IfOk result IsWaiting }
    ensures err { IfErr result (EndsAmid course.entry.wave course.entry.conditions.items condition) }
{
    let Course {
        wave,
        mut conditions,
        cones,
    } = course;
    match conditions.push(condition) {
        Ok(()) => {
            let next = Course {
                wave,
                conditions,
                cones,
            };
            walk_on(next)
        }
        Err(_) => Err(CheckErr::Memory),
    }
}
