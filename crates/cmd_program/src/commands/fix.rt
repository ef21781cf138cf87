//! `fix`: reads a netlist and a recording of it, and prints which bits become known where unknown starts are set.

ghost use Rattle.std.specs.Prelude.{◌≤◌};
ghost use Rattle.wave_proved.specs.Contents.{AreLimits, AreLimits-prop};

use crate::fixed::fixed;
use crate::limits::limits_of;
use base_line::{Kind, Line, Opt};
use base_run::{Ready, Refusal};
use base_shelf::{Shelf, Sink};
use cmd_phases::{RECORDING_BYTES, Refused, agreed_of};
use cmd_set::{Form, Inputs, Run};
use cmd_words::{CONFLICTS, ENUMERATE, JobWords, job_of, job_options, needs};
use law_model::Limits;
use std::alloc::Global;

static OPTIONS: &[Opt<'static>] = job_options![needs!("set", Kind::Sets), CONFLICTS, ENUMERATE];

/// The words of `fix`.
#[derive(Clone, Copy, Debug, Drop)]
pub struct Fix<'a> {
    pub job: JobWords<'a>,
    /// The starts to be set: pieces joined by commas, each a name, `=`, and `0` or `1`.
    pub sets: &'a str,
    /// How places are decided.
    pub limits: Limits,
    ghost limits_fit: { AreLimits limits } by { AreLimits-prop limits },
}

impl<'a> Run<'a> for Fix<'a> {
    ghost use Rattle.cmd_program.specs.Fix.{fix, fix_values};

    type Cause = Refused;

    ghost command = { fix };

    ghost values = { fix_values };

    fn form() -> Form<'a> {
        Form {
            word: "fix",
            options: OPTIONS,
            files: true,
        }
    }

    fn of_line(line: &Line<'a>, files: &'a [String]) -> Option<Self> {
        let job = job_of(line, files)?;
        let sets = line.get("set")?;
        let limits = limits_of(line)?;
        Some(Fix { job, sets, limits })
    }

    fn inputs(&self) -> Inputs<'a> {
        Inputs {
            first: Some(self.job.recording),
            second: None,
            rest: self.job.netlists,
            most: RECORDING_BYTES,
        }
    }

    fn prepare<S: Shelf, O: Sink>(
        &self,
        alloc: Global,
        shelf: &mut S,
        out: &mut O,
    ) -> Result<Ready<'_>, Refusal<Refused>> {
        let agreed = agreed_of(alloc, shelf, &self.job)?;
        fixed(alloc, self, &agreed, out)
    }
}
