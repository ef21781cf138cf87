//! The check of a certificate, and its report.

ghost use Rattle.std.specs.Prelude.{◌≡◌, [], IfOk};
ghost use Rattle.std.specs.List.{AllByRecursion};
ghost use Rattle.cmd_phases.specs.OfListing.{IsSomeCondition};
ghost use Rattle.base_run.specs.Prepared.{Prepared, PreparedAlone, answer_of};
ghost use Rattle.cmd_program.specs.Check.{certified_phases, check_answer, check_values, checked_phases};
ghost use Rattle.cmd_phases.specs.Certificate.{check_shows};
ghost use Rattle.cmd_phases.specs.Repair.{IsWaveOf};

use crate::commands::check::Check;
use crate::report::report_with;
use base_lists::Memory;
use base_run::{Ready, Refusal, Report};
use base_shelf::Shelf;
use cmd_phases::{Agreed, Cert, Condition, Refused, certificate_of, certified_wave};
use replay_forces::forces_of;
use std::alloc::Global;
use wave_proved::Wave;

/// The check of a certificate of a job whose recording agrees.
pub fn check_agreed<'a, S: Shelf>(
    alloc: Global,
    shelf: &mut S,
    words: &Check<'a>,
    agreed: &Agreed,
) -> Result<Ready<'a>, Refusal<Refused>>
    ensures { Prepared S.told (certified_phases (check_values words.now) agreed.now.parts) answer_of
        (S.view shelf.old) (S.view shelf.new) result }
{
    let cert = certificate_of(alloc, shelf, words.cert)?;
    checked(alloc, words, agreed, cert)
}

/// What the words ask of a certificate of a job that agrees.
fn checked<'a>(
    alloc: Global,
    words: &Check<'a>,
    agreed: &Agreed,
    cert: Cert,
) -> Result<Ready<'a>, Refusal<Refused>>
    ensures { PreparedAlone (checked_phases (check_values words.now) agreed.now.parts cert) answer_of result }
{
    let checked = certified_wave(alloc, agreed, cert, words.limits)?;
    let conditions = checked.conditions.as_slice();
    Ok(report_of(alloc, words, agreed, &checked.wave, conditions)?)
}

/// The report of a finished wave of a job, with the lines of its conditions.
fn report_of<'a>(
    alloc: Global,
    words: &Check<'a>,
    agreed: &Agreed,
    wave: &Wave<'_>,
    conditions: &[Condition],
) -> Result<Ready<'a>, Memory>
    requires wave { IsWaveOf agreed.now.parts.netlist agreed.now.parts.recorded wave.now }
    requires conditions { AllByRecursion (IsSomeCondition wave.now) conditions.now }
    ensures { IfOk result (λ ready. answer_of ready
        ≡ check_answer (check_values words.now) agreed.now.parts (check_shows wave.now conditions.now)) }
{
    let forces = forces_of(alloc, wave)?;
    let binding = &agreed.parts.recorded.binding;
    let report = report_with(alloc, wave, binding, words.lines, &forces, conditions)?;
    Ok(ready_with(alloc, Report::new(alloc, report)?))
}

/// No file, and a report.
pub fn ready_with<'a>(alloc: Global, report: Report) -> Ready<'a>
    ensures { answer_of result ≡ record { files = []; printed = report.bytes.items } }
{
    Ready {
        outputs: Vec::new(alloc),
        report,
    }
}
