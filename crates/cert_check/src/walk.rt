//! The walk along the lines of a certificate.

ghost use Rattle.std.specs.Prelude.{◌≡◌, [], IfErr, IfOk, None as ANone};
ghost use Rattle.design_circuit.specs.Fits.{place_at};
ghost use Rattle.wave_proved.specs.Advance.{IsPlain};
ghost use Rattle.wave_proved.specs.Contents.{Contents, job, next_number, next_seen};
ghost use Rattle.wave_proved.specs.Token.{HasNext};
ghost use Rattle.cert_turns.specs.OfCone.{AreRightOf};
ghost use Rattle.cert_check.specs.declared.refusal.CertFault.TheVariants.{Missing};
ghost use Rattle.cert_check.specs.declared.refusal.CheckErr.TheVariants.{Refused};
ghost use Rattle.cert_check.specs.Standing.{EndsShort, EndsWell, Finishes, IsDone, IsRight, IsWaiting, Lacks, Stands};
ghost use Rattle.cert_check.specs.Standing.{StopsAt, Takes};
ghost use Rattle.cert_check.specs.Walk.{IsFirstCertFault};

use crate::check::Checked;
use crate::lines::{take_line, walk_on};
use crate::refusal::{CertFault, CheckErr};
use crate::turned::take_turned;
use crate::walked::{Course, Walked};
use base_lists::{Items, Memory};
use cert_turns::{Condition, Cones};
use cert_writer::{Entry, Form};
use design_circuit::count_places;
use std::alloc::Global;
use wave_proved::Wave;

/// Goes along the lines between, and to the end: the wave, and the conditions that turns make.
pub fn walk<'a>(
    alloc: Global,
    form: Form,
    wave: Wave<'a>,
    entries: Vec<Entry>,
) -> Result<Checked<'a>, CheckErr>
    requires { wave.lines ≡ [] }
    ensures done { IfOk result (λ checked. IsDone form wave.entry entries.items checked.wave checked.conditions) }
    ensures stops { IfErr result (IsFirstCertFault form wave.entry entries.items) }
{
    wave.recall();
    match new_cones(alloc) {
        Ok(cones) => {
            let course = Course {
                wave,
                conditions: Vec::new(alloc),
                cones,
            };
            match walk_on(course) {
                Ok(begun) => take_entries(alloc, form, begun, entries),
                Err(refusal) => Err(refusal),
            }
        }
        Err(_) => Err(CheckErr::Memory),
    }
}

/// Of no place anything is known.
fn new_cones(alloc: Global) -> Result<Box<Cones>, Memory>
    ensures { IfOk result (λ cones. (c : Contents) → AreRightOf c cones.value) }
{
    let cones = Cones::new(alloc)?;
    Ok(Box::new(alloc, cones)?)
}

/// The same from where it waits for the first of them.
fn take_entries<'a>(
    alloc: Global,
    form: Form,
    begun: Walked<'a>,
    entries: Vec<Entry>,
) -> Result<Checked<'a>, CheckErr>
    requires { IsWaiting begun }
    ensures done { IfOk result (λ checked. (start : Contents) → Stands form start [] begun.entry
        → IsDone form start entries.items checked.wave checked.conditions) }
    ensures stops { IfErr result (λ e. (start : Contents) → Stands form start [] begun.entry
        → IsFirstCertFault form start entries.items e) }
{
    let last = entries.as_slice().len() + 3;
    let mut walked = begun;
    let mut number: usize = 3;
    'entries: for entry in entries {
        match take_entry(alloc, form, walked, entry, number) {
            Ok(next) => walked = next,
            Err(refusal) => return Err(refusal),
        }
        number += 1;
    }
    finish(walked, last)
}

/// Takes one line more, of this number.
fn take_entry<'a>(
    alloc: Global,
    form: Form,
    walked: Walked<'a>,
    entry: Entry,
    number: usize,
) -> Result<Walked<'a>, CheckErr>
    requires { IsWaiting walked }
    ensures ok { let old = walked.entry in
        IfOk result (Takes form old.course.wave old.course.conditions.items old.under_way entry) }
    ensures waits { IfOk result IsWaiting }
    ensures err { let old = walked.entry in
        IfErr result (StopsAt form number old.course.wave old.course.conditions.items old.under_way entry) }
{
    let Walked { course, under_way } = walked;
    match under_way {
        Some(condition) => take_turned(alloc, course, condition, entry, number),
        None => take_unturned(alloc, form, course, entry, number),
    }
}

/// The same where no turn is due.
fn take_unturned<'a>(
    alloc: Global,
    form: Form,
    course: Course<'a>,
    entry: Entry,
    number: usize,
) -> Result<Walked<'a>, CheckErr>
    requires stops { IsPlain (next_seen course.wave) → ⊥ }
    requires right { IsRight course }
    ensures ok { let old = course.entry in IfOk result (Takes form old.wave old.conditions.items ANone entry) }
    ensures waits { IfOk result IsWaiting }
    ensures err { let old = course.entry in
        IfErr result (StopsAt form number old.wave old.conditions.items ANone entry) }
{
    match entry {
        Entry::Line(line) => take_line(alloc, form, course, line, number),
        Entry::Turn(_) => Err(CheckErr::Refused(CertFault::Stray { line: number })),
    }
}

/// The end: no turn is due, and no place is left. The number is that of the last line.
fn finish<'a>(walked: Walked<'a>, number: usize) -> Result<Checked<'a>, CheckErr>
    requires { IsWaiting walked }
    ensures ok { IfOk result (λ checked. Finishes walked.entry checked.wave checked.conditions) }
    ensures err { IfErr result (Lacks number walked.entry) }
{
    let Walked { course, under_way } = walked;
    match under_way {
        Some(_) => Err(CheckErr::Refused(CertFault::BadTurn { line: number })),
        None => end(course.wave, course.conditions),
    }
}

/// The same where no turn is due.
fn end<'a>(wave: Wave<'a>, conditions: Vec<Condition>) -> Result<Checked<'a>, CheckErr>
    requires { IsPlain (next_seen wave) → ⊥ }
    ensures ok { IfOk result (λ checked. EndsWell wave.entry conditions.items checked.wave checked.conditions) }
    ensures err { IfErr result (EndsShort wave.entry conditions.items) }
{
    if wave.count() < count_places(&wave.circuit()) {
        return Err(missing(&wave));
    }
    Ok(Checked {
        wave,
        conditions: Items::from_vec(conditions),
    })
}

/// The refusal where the next place has no line.
pub fn missing(wave: &Wave<'_>) -> CheckErr
    requires { HasNext wave.now }
    ensures { result ≡ Refused (Missing (place_at (job wave.now) (next_number wave.now))) }
{
    match wave.next_place() {
        Some(place) => CheckErr::Refused(CertFault::Missing { place }),
        None => unreachable!(),
    }
}
