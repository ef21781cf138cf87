//! `check`: reads a netlist, a recording of it and a certificate, and prints the report of what the certificate shows.

ghost use Rattle.std.specs.Prelude.{◌≤◌};
ghost use Rattle.wave_proved.specs.Contents.{AreLimits, AreLimits-prop};

use crate::checked::check_agreed;
use crate::limits::limits_of;
use crate::lines::lines_of;
use base_line::{Kind, Line, Opt};
use base_run::{Ready, Refusal};
use base_shelf::{Shelf, Sink};
use cmd_phases::{Refused, TEXT_BYTES, agreed_of};
use cmd_set::{Form, Inputs, Run};
use cmd_words::{CONFLICTS, ENUMERATE, JobWords, REPORT, job_of, job_options, needs};
use law_model::Limits;
use report_bits::ReportLines;
use std::alloc::Global;

static OPTIONS: &[Opt<'static>] = job_options![
    needs!("cert", Kind::Reads),
    CONFLICTS,
    ENUMERATE,
    REPORT
];

/// The words of `check`.
#[derive(Clone, Copy, Debug, Drop)]
pub struct Check<'a> {
    pub job: JobWords<'a>,
    /// The file of the certificate.
    pub cert: &'a str,
    /// How places were decided.
    pub limits: Limits,
    /// The lines of bits in the report.
    pub lines: ReportLines,
    ghost limits_fit: { AreLimits limits } by { AreLimits-prop limits },
}

impl<'a> Run<'a> for Check<'a> {
    ghost use Rattle.cmd_program.specs.Check.{check, check_values};

    type Cause = Refused;

    ghost command = { check };

    ghost values = { check_values };

    fn form() -> Form<'a> {
        Form {
            word: "check",
            options: OPTIONS,
            files: true,
        }
    }

    fn of_line(line: &Line<'a>, files: &'a [String]) -> Option<Self> {
        Some(Check {
            job: job_of(line, files)?,
            cert: line.get("cert")?,
            limits: limits_of(line)?,
            lines: lines_of(line.get("report"))?,
        })
    }

    fn inputs(&self) -> Inputs<'a> {
        Inputs {
            first: Some(self.cert),
            second: Some(self.job.recording),
            rest: self.job.netlists,
            most: TEXT_BYTES,
        }
    }

    fn prepare<S: Shelf, O: Sink>(
        &self,
        alloc: Global,
        shelf: &mut S,
        _out: &mut O,
    ) -> Result<Ready<'_>, Refusal<Refused>> {
        let agreed = agreed_of(alloc, shelf, &self.job)?;
        check_agreed(alloc, shelf, self, &agreed)
    }
}
