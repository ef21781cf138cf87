//! The forces that a code's text says.

ghost use Rattle.std.specs.Prelude.{◌≡◌, IfOk};
ghost use Rattle.design_circuit.specs.Force.{AreEvents};
ghost use Rattle.cmd_job.specs.Compared.{job_for};
ghost use Rattle.base_run.specs.Prepared.{Judged, Prepared};
ghost use Rattle.cmd_words.specs.Words.{job_values};
ghost use Rattle.cmd_phases.specs.Code.{CodeComes, code_in};
ghost use Rattle.cmd_phases.specs.Phases.{code_cause, code_phases, itself};

use crate::cause::Refused;
use crate::parts::Fitted;
use crate::pieces::names_of;
use base_run::{Refusal, read_input};
use base_shelf::Shelf;
use cmd_words::JobWords;
use design_circuit::{Bytes, Circuit, Forces};
use replay_code::{CodeErr, read_code};
use std::alloc::Global;

/// The most bytes of a code or a certificate: more than any text in memory has.
pub const TEXT_BYTES: usize = isize::MAX as usize;

/// The forces that the code of a file says, of the job that the words name.
pub fn forces_of<S: Shelf>(
    alloc: Global,
    shelf: &mut S,
    name: &str,
    words: &JobWords<'_>,
    job: &Fitted,
) -> Result<Forces, Refusal<Refused>>
    ensures prepared { Prepared S.told (code_phases name.now (job_values words.now) job.now.parts) itself
        (S.view shelf.old) (S.view shelf.new) result }
    ensures events { IfOk result (AreEvents (job_for job.now.parts.netlist job.now.parts.recorded)) }
{
    let scope = names_of(alloc, words.scope)?;
    let text = read_input(alloc, shelf, name, TEXT_BYTES, Refused::LongCode)?;
    forces_in(alloc, job, text.as_slice(), scope.as_slice())
}

/// The forces that a text says.
#[tactic(auto, using(crate::proofs::Jobs::circuit_fits))]
fn forces_in(
    alloc: Global,
    job: &Fitted,
    text: &[u8],
    scope: &[Bytes],
) -> Result<Forces, Refusal<Refused>>
    ensures judged { Judged (CodeComes (code_in job.now.parts text.now scope.now)) code_cause itself result }
    ensures events { IfOk result (AreEvents (job_for job.now.parts.netlist job.now.parts.recorded)) }
{
    let circuit = Circuit {
        design: &job.parts.netlist.design,
        order: &job.parts.netlist.order,
        stim: &job.parts.recorded.stim,
    };
    match read_code(alloc, text, &circuit, scope) {
        Ok(forces) => Ok(forces),
        Err(CodeErr::Refused(fault)) => Err(Refusal::Text {
            cause: Refused::Code(fault),
        }),
        Err(CodeErr::Memory) => Err(Refusal::Memory),
    }
}
