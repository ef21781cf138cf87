//! `blame`: reads a netlist and a recording of it, and prints for each bit that stays unknown a source to blame.

ghost use Rattle.std.specs.Prelude.{◌≤◌};
ghost use Rattle.wave_proved.specs.Contents.{AreLimits, AreLimits-prop};

use crate::blamed::blamed;
use crate::limits::limits_of;
use base_line::{Line, Opt};
use base_run::{Ready, Refusal};
use base_shelf::{Shelf, Sink};
use cmd_phases::{RECORDING_BYTES, Refused, agreed_of};
use cmd_set::{Form, Inputs, Run};
use cmd_words::{CONFLICTS, ENUMERATE, JobWords, job_of, job_options};
use law_model::Limits;
use std::alloc::Global;

static OPTIONS: &[Opt<'static>] = job_options![CONFLICTS, ENUMERATE];

/// The words of `blame`.
#[derive(Clone, Copy, Debug, Drop)]
pub struct Blame<'a> {
    pub job: JobWords<'a>,
    /// How places are decided.
    pub limits: Limits,
    ghost limits_fit: { AreLimits limits } by { AreLimits-prop limits },
}

impl<'a> Run<'a> for Blame<'a> {
    ghost use Rattle.cmd_program.specs.Blame.{blame, blame_values};

    type Cause = Refused;

    ghost command = { blame };

    ghost values = { blame_values };

    fn form() -> Form<'a> {
        Form {
            word: "blame",
            options: OPTIONS,
            files: true,
        }
    }

    fn of_line(line: &Line<'a>, files: &'a [String]) -> Option<Self> {
        let job = job_of(line, files)?;
        let limits = limits_of(line)?;
        Some(Blame { job, limits })
    }

    fn inputs(&self) -> Inputs<'a> {
        Inputs {
            first: Some(self.job.recording),
            second: None,
            rest: self.job.netlists,
            most: RECORDING_BYTES,
        }
    }

    fn prepare<S: Shelf, O: Sink>(
        &self,
        alloc: Global,
        shelf: &mut S,
        out: &mut O,
    ) -> Result<Ready<'_>, Refusal<Refused>> {
        let agreed = agreed_of(alloc, shelf, &self.job)?;
        blamed(alloc, self, &agreed, out)
    }
}
