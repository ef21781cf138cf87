//! `audit`: reads a netlist and a recording of it, and prints the places that the replay knows otherwise.

ghost use Rattle.std.specs.Prelude.{◌≤◌};
ghost use Rattle.wave_proved.specs.Contents.{AreLimits, AreLimits-prop};

use crate::audited::audited;
use crate::limits::limits_of;
use base_line::{Line, Opt};
use base_run::{Ready, Refusal};
use base_shelf::{Shelf, Sink};
use cmd_phases::{RECORDING_BYTES, Refused, agreed_of};
use cmd_set::{Form, Inputs, Run};
use cmd_words::{CONFLICTS, ENUMERATE, JobWords, job_of, job_options};
use law_model::Limits;
use std::alloc::Global;

static OPTIONS: &[Opt<'static>] = job_options![CONFLICTS, ENUMERATE];

/// The words of `audit`.
#[derive(Clone, Copy, Debug, Drop)]
pub struct Audit<'a> {
    pub job: JobWords<'a>,
    /// How places are decided.
    pub limits: Limits,
    ghost limits_fit: { AreLimits limits } by { AreLimits-prop limits },
}

impl<'a> Run<'a> for Audit<'a> {
    ghost use Rattle.cmd_program.specs.Audit.{audit, audit_values};

    type Cause = Refused;

    ghost command = { audit };

    ghost values = { audit_values };

    fn form() -> Form<'a> {
        Form {
            word: "audit",
            options: OPTIONS,
            files: true,
        }
    }

    fn of_line(line: &Line<'a>, files: &'a [String]) -> Option<Self> {
        let job = job_of(line, files)?;
        let limits = limits_of(line)?;
        Some(Audit { job, limits })
    }

    fn inputs(&self) -> Inputs<'a> {
        Inputs {
            first: Some(self.job.recording),
            second: None,
            rest: self.job.netlists,
            most: RECORDING_BYTES,
        }
    }

    fn prepare<S: Shelf, O: Sink>(
        &self,
        alloc: Global,
        shelf: &mut S,
        out: &mut O,
    ) -> Result<Ready<'_>, Refusal<Refused>> {
        let agreed = agreed_of(alloc, shelf, &self.job)?;
        audited(alloc, self, &agreed, out)
    }
}
