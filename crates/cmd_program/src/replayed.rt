//! The replay of a job under forces, and its texts.

ghost use Rattle.std.specs.Prelude.{◌≡◌, IfOk};
ghost use Rattle.design_circuit.specs.Force.{AreEvents};
ghost use Rattle.design_circuit.specs.Handed.{HasPlaces};
ghost use Rattle.cmd_job.specs.Compared.{job_for};
ghost use Rattle.base_run.specs.Prepared.{Prepared, PreparedAlone, answer_of};
ghost use Rattle.cmd_program.specs.Replay.{coded_phases, forced_phases, replay_answer, replay_values};
ghost use Rattle.cmd_phases.specs.Code.{moments_line};

use crate::commands::replay::Replay;
use base_lists::{Memory, put, put_number};
use base_run::{Output, Ready, Refusal, Report};
use base_shelf::Shelf;
use cmd_phases::{Fitted, Refused, forces_of};
use design_circuit::{Circuit, Forces, History, Stim};
use recording_writer::vcd_text;
use replay_history::replay;
use std::alloc::Global;

/// The replay of a job under the code that the words name.
pub fn replay_job<'a, S: Shelf>(
    alloc: Global,
    shelf: &mut S,
    words: &Replay<'a>,
    job: &Fitted,
) -> Result<Ready<'a>, Refusal<Refused>>
    ensures { Prepared S.told (coded_phases (replay_values words.now) job.now.parts) answer_of
        (S.view shelf.old) (S.view shelf.new) result }
{
    let forces = forces_of(alloc, shelf, words.code, &words.job, job)?;
    replayed(alloc, words, job, &forces)
}

/// What the words ask of a job and of the forces that their code says.
#[tactic(auto, using(cmd_phases::proofs::Jobs::circuit_fits))]
fn replayed<'a>(
    alloc: Global,
    words: &Replay<'a>,
    job: &Fitted,
    forces: &Forces,
) -> Result<Ready<'a>, Refusal<Refused>>
    requires forces { AreEvents (job_for job.now.parts.netlist job.now.parts.recorded) forces.now }
    ensures { PreparedAlone (forced_phases (replay_values words.now) job.now.parts forces.now) answer_of result }
{
    let circuit = Circuit {
        design: &job.parts.netlist.design,
        order: &job.parts.netlist.order,
        stim: &job.parts.recorded.stim,
    };
    let history = replay(alloc, &circuit, forces)?;
    Ok(texts_of(alloc, words, job, &history)?)
}

/// The text of what a history shows, and how many moments it has.
fn texts_of<'a>(
    alloc: Global,
    words: &Replay<'a>,
    job: &Fitted,
    history: &History,
) -> Result<Ready<'a>, Memory>
    requires places { HasPlaces (job_for job.now.parts.netlist job.now.parts.recorded) history.now }
    ensures { IfOk result (λ ready. answer_of ready
        ≡ replay_answer (replay_values words.now) job.now.parts history.now) }
{
    let recorded = &job.parts.recorded;
    let vcd = vcd_text(
        alloc,
        &job.parts.netlist.design,
        &recorded.binding,
        &recorded.stim,
        history,
    )?;
    let report = Report::new(alloc, moments_line(alloc, &recorded.stim)?)?;
    let mut outputs = Vec::new(alloc);
    outputs.push(Output::new(alloc, words.vcd, vcd)?)?;
    Ok(Ready { outputs, report })
}

/// `replayed M moments`
fn moments_line(alloc: Global, stim: &Stim) -> Result<Vec<u8>, Memory>
    ensures { IfOk result (λ text. text.items ≡ moments_line stim.now) }
{
    let mut text = Vec::new(alloc);
    put(&mut text, b"replayed ")?;
    put_number(&mut text, stim.times.as_slice().len() as u64)?;
    put(&mut text, b" moments\n")?;
    Ok(text)
}
