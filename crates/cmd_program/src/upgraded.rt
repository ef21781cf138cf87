//! The upgrade of a certificate of form 1 to form 2.

ghost use Rattle.std.specs.Prelude.{◌≡◌, IfOk};
ghost use Rattle.std.specs.List.{AllByRecursion};
ghost use Rattle.cert_writer.specs.declared.cert.Form.TheVariants.{Turns};
ghost use Rattle.cmd_phases.specs.OfListing.{IsSomeCondition};
ghost use Rattle.base_run.specs.Prepared.{Prepared, PreparedAlone, answer_of};
ghost use Rattle.cmd_program.specs.Upgrade.{certified_upgrade, checked_upgrade, formed_upgrade, upgrade_answer};
ghost use Rattle.cmd_program.specs.Upgrade.{upgrade_values};
ghost use Rattle.cmd_phases.specs.Repair.{IsWaveOf};

use crate::commands::upgrade::Upgrade;
use crate::report::report_with;
use base_lists::Memory;
use base_run::{Output, Ready, Refusal, Report};
use base_shelf::Shelf;
use cmd_phases::{
    Agreed, Cert, Condition, Form, Refused, certificate_of, certified_wave, conditions_for,
    without_turns, write_cert,
};
use replay_forces::forces_of;
use std::alloc::Global;
use wave_proved::Wave;

/// The upgrade of a certificate of a job whose recording agrees.
pub fn upgrade_agreed<'a, S: Shelf>(
    alloc: Global,
    shelf: &mut S,
    words: &Upgrade<'a>,
    agreed: &Agreed,
) -> Result<Ready<'a>, Refusal<Refused>>
    ensures { Prepared S.told (certified_upgrade (upgrade_values words.now) agreed.now.parts) answer_of
        (S.view shelf.old) (S.view shelf.new) result }
{
    let cert = certificate_of(alloc, shelf, words.cert)?;
    upgraded(alloc, words, agreed, cert)
}

/// What the words ask of a certificate of a job that agrees.
fn upgraded<'a>(
    alloc: Global,
    words: &Upgrade<'a>,
    agreed: &Agreed,
    cert: Cert,
) -> Result<Ready<'a>, Refusal<Refused>>
    ensures { PreparedAlone (formed_upgrade (upgrade_values words.now) agreed.now.parts cert) answer_of result }
{
    without_turns(&cert)?;
    with_turns(alloc, words, agreed, cert)
}

/// The same of a certificate that has no turns yet.
fn with_turns<'a>(
    alloc: Global,
    words: &Upgrade<'a>,
    agreed: &Agreed,
    cert: Cert,
) -> Result<Ready<'a>, Refusal<Refused>>
    ensures { PreparedAlone (checked_upgrade (upgrade_values words.now) agreed.now.parts cert) answer_of result }
{
    let checked = certified_wave(alloc, agreed, cert, words.limits)?;
    let wave = checked.wave;
    let conditions = conditions_for(alloc, Form::Turns, &wave)?;
    Ok(texts_of(alloc, words, agreed, &wave, conditions.as_slice())?)
}

/// The certificate of a finished wave of a job and of conditions, and its report.
fn texts_of<'a>(
    alloc: Global,
    words: &Upgrade<'a>,
    agreed: &Agreed,
    wave: &Wave<'_>,
    conditions: &[Condition],
) -> Result<Ready<'a>, Memory>
    requires wave { IsWaveOf agreed.now.parts.netlist agreed.now.parts.recorded wave.now }
    requires conditions { AllByRecursion (IsSomeCondition wave.now) conditions.now }
    ensures { IfOk result (λ ready. answer_of ready
        ≡ upgrade_answer (upgrade_values words.now) agreed.now.parts wave.now conditions.now) }
{
    let cert = write_cert(alloc, wave, Form::Turns, conditions)?;
    let forces = forces_of(alloc, wave)?;
    let binding = &agreed.parts.recorded.binding;
    let report = report_with(alloc, wave, binding, words.lines, &forces, conditions)?;
    let mut outputs = Vec::new(alloc);
    outputs.push(Output::new(alloc, words.to, cert)?)?;
    Ok(Ready {
        outputs,
        report: Report::new(alloc, report)?,
    })
}
