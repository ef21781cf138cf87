//! The repair of a job over a blank history, and the places that its replay knows otherwise.

ghost use Rattle.std.specs.Prelude.{◌≡◌, IfErr, IfOk};
ghost use Rattle.report_audit.specs.Listed.{IsAudit};
ghost use Rattle.design_circuit.specs.Handed.{IsBlank};
ghost use Rattle.cmd_job.specs.Compared.{job_for};
ghost use Rattle.base_run.specs.Prepared.{IsJudgedBy, PreparedAlone, answer_of};
ghost use Rattle.wave_proved.specs.Contents.{AreLimits};
ghost use Rattle.cmd_program.specs.Audit.{audit_values, AuditComes, PrintsAudit, walk_audited};
ghost use Rattle.cmd_phases.specs.Phases.{no_cause};
ghost use Rattle.cmd_phases.specs.Repair.{IsRepairedBy};

use crate::checked::ready_with;
use crate::commands::audit::Audit;
use base_lists::Memory;
use base_run::{Ready, Refusal, Report};
use base_shelf::Sink;
use cmd_phases::{Agreed, Refused, audit_text, wave_under};
use design_circuit::History;
use law_model::Limits;
use std::alloc::Global;
use wave_proved::Wave;

/// The walk over the places of a job that agrees, of which nothing is known, and its audit beside the replay.
#[tactic(auto, using(cmd_phases::proofs::Jobs::fits_job))]
pub fn audited<'a, O: Sink>(
    alloc: Global,
    words: &Audit<'a>,
    agreed: &Agreed,
    out: &mut O,
) -> Result<Ready<'a>, Refusal<Refused>>
    ensures prepared { PreparedAlone (walk_audited (audit_values words.now) agreed.now.parts)
        answer_of result }
    ensures out { O.view out.new ≡ O.view out.old }
{
    let parts = &agreed.parts;
    let blank = History::blank(alloc, &parts.netlist.design, &parts.recorded.stim)?;
    let wave = blank_wave(alloc, agreed, &blank, words.limits, out)?;
    Ok(listed(alloc, &wave, &agreed.history)?)
}

/// The finished wave of a job over a blank history, which no place contradicts.
#[tactic(auto, using(cmd_phases::proofs::Jobs::circuit_fits))]
fn blank_wave<'b, O: Sink>(
    alloc: Global,
    agreed: &'b Agreed,
    blank: &'b History,
    limits: Limits,
    out: &mut O,
) -> Result<Wave<'b>, Refusal<Refused>>
    requires blank { IsBlank (job_for agreed.now.parts.netlist agreed.now.parts.recorded) blank.now }
    requires limits { AreLimits limits }
    ensures repaired { let parts = agreed.now.parts in
        IfOk result (IsRepairedBy limits parts.netlist parts.recorded.stim blank.now) }
    ensures refused { let parts = agreed.now.parts in
        IfErr result (IsJudgedBy (AuditComes limits parts.netlist parts.recorded) no_cause) }
    ensures out { O.view out.new ≡ O.view out.old }
{
    let netlist = &agreed.parts.netlist;
    let stim = &agreed.parts.recorded.stim;
    wave_under(alloc, netlist, stim, blank, limits, out)
}

/// The audit of a finished wave beside the replay.
fn listed<'a>(alloc: Global, wave: &Wave<'_>, history: &History) -> Result<Ready<'a>, Memory>
    requires { IsAudit wave.now history.now }
    ensures { IfOk result (λ ready. PrintsAudit wave.now history.now (answer_of ready)) }
{
    let text = audit_text(alloc, wave, history)?;
    Ok(ready_with(alloc, Report::new(alloc, text)?))
}
