//! The texts of a repair.

ghost use Rattle.std.specs.Prelude.{◌≡◌, IfOk};
ghost use Rattle.base_run.specs.Prepared.{answer_of};
ghost use Rattle.cmd_program.specs.Repair.{repair_values, HasTexts, answer_with};
ghost use Rattle.cmd_phases.specs.Repair.{IsWaveOf};

use crate::commands::repair::Repair;
use crate::report::report_with;
use base_lists::Memory;
use base_run::{Output, Ready, Report};
use cmd_phases::{Agreed, conditions_for, form_of, names_of, write_cert};
use recording_shown::wave_text;
use replay_code::write_code;
use replay_forces::forces_of;
use std::alloc::Global;
use wave_proved::Wave;

/// The texts of a finished wave of a job: the recording, the code, the certificate and the report.
pub fn texts_of<'a>(
    alloc: Global,
    words: &Repair<'a>,
    agreed: &Agreed,
    wave: &Wave<'_>,
) -> Result<Ready<'a>, Memory>
    requires wave { IsWaveOf agreed.now.parts.netlist agreed.now.parts.recorded wave.now }
    ensures { let parts = agreed.now.parts in IfOk result (λ ready.
        HasTexts (repair_values words.now) parts.netlist parts.recorded wave.now (answer_of ready)) }
{
    let recorded = &agreed.parts.recorded;
    let binding = &recorded.binding;
    let vcd = wave_text(alloc, wave, binding)?;
    let scope = names_of(alloc, words.job.scope)?;
    let forces = forces_of(alloc, wave)?;
    let code = write_code(
        alloc,
        &agreed.parts.netlist.design,
        &recorded.stim,
        scope.as_slice(),
        &forces,
    )?;
    let form = form_of(words.form);
    let conditions = conditions_for(alloc, form, wave)?;
    let listed = conditions.as_slice();
    let cert = write_cert(alloc, wave, form, listed)?;
    let report = report_with(alloc, wave, binding, words.lines, &forces, listed)?;
    ready_of(alloc, words, vcd, code, cert, report)
}

/// The texts, ready to be delivered.
fn ready_of<'a>(
    alloc: Global,
    words: &Repair<'a>,
    vcd: Vec<u8>,
    code: Vec<u8>,
    cert: Vec<u8>,
    report: Vec<u8>,
) -> Result<Ready<'a>, Memory>
    ensures { IfOk result (λ ready. answer_of ready
        ≡ answer_with (repair_values words.now) vcd.items code.items cert.items report.items) }
{
    let mut outputs = Vec::new(alloc);
    outputs.push(Output::new(alloc, words.vcd, vcd)?)?;
    outputs.push(Output::new(alloc, words.code, code)?)?;
    outputs.push(Output::new(alloc, words.cert, cert)?)?;
    Ok(Ready {
        outputs,
        report: Report::new(alloc, report)?,
    })
}
