//! `upgrade`: reads a netlist, a recording of it and a certificate of form 1, and writes the certificate of form 2 with
//! the same lines.

ghost use Rattle.std.specs.Prelude.{◌↔◌, ◌≤◌, [], ◌∷◌, IsTrue, map, string_bytes};
ghost use Rattle.base_line.specs.Apart.{AreApart};
ghost use Rattle.wave_proved.specs.Contents.{AreLimits, AreLimits-prop};

use crate::limits::limits_of;
use crate::lines::lines_of;
use crate::upgraded::upgrade_agreed;
use base_line::{Kind, Line, Opt, are_apart};
use base_run::{Ready, Refusal};
use base_shelf::{Shelf, Sink};
use cmd_phases::{Refused, TEXT_BYTES, agreed_of};
use cmd_set::{Form, Inputs, Run};
use cmd_words::{CONFLICTS, ENUMERATE, JobWords, REPORT, job_of, job_options, needs};
use law_model::Limits;
use report_bits::ReportLines;
use std::alloc::Global;

static OPTIONS: &[Opt<'static>] = job_options![
    needs!("cert", Kind::Reads),
    needs!("to", Kind::Writes),
    CONFLICTS,
    ENUMERATE,
    REPORT
];

/// The words of `upgrade`.
#[derive(Clone, Copy, Debug, Drop)]
pub struct Upgrade<'a> {
    pub job: JobWords<'a>,
    /// The file of the certificate that is read.
    pub cert: &'a str,
    /// The file of the certificate that is written.
    pub to: &'a str,
    /// The clauses of a search, and of a log that leaves a place undecided, 1 to 100,000.
    pub limits: Limits,
    /// The lines of bits in the report.
    pub lines: ReportLines,
    ghost limits_fit: { AreLimits limits } by { AreLimits-prop limits },
}

impl<'a> Run<'a> for Upgrade<'a> {
    ghost use Rattle.cmd_program.specs.Upgrade.{upgrade, upgrade_values};

    type Cause = Refused;

    ghost command = { upgrade };

    ghost values = { upgrade_values };

    fn form() -> Form<'a> {
        Form {
            word: "upgrade",
            options: OPTIONS,
            files: true,
        }
    }

    fn of_line(line: &Line<'a>, files: &'a [String]) -> Option<Self> {
        let words = Upgrade {
            job: job_of(line, files)?,
            cert: line.get("cert")?,
            to: line.get("to")?,
            limits: limits_of(line)?,
            lines: lines_of(line.get("report"))?,
        };
        if is_apart(words) { Some(words) } else { None }
    }

    fn inputs(&self) -> Inputs<'a> {
        Inputs {
            first: Some(self.cert),
            second: Some(self.job.recording),
            rest: self.job.netlists,
            most: TEXT_BYTES,
        }
    }

    fn prepare<S: Shelf, O: Sink>(
        &self,
        alloc: Global,
        shelf: &mut S,
        _out: &mut O,
    ) -> Result<Ready<'_>, Refusal<Refused>> {
        let agreed = agreed_of(alloc, shelf, &self.job)?;
        upgrade_agreed(alloc, shelf, self, &agreed)
    }
}

fn is_apart(words: Upgrade<'_>) -> bool
    ensures { IsTrue result ↔ AreApart (words.entry.to.now ∷ [])
        (words.entry.job.recording.now ∷ words.entry.cert.now ∷ map string_bytes words.entry.job.netlists.now) }
{
    let inputs = [words.job.recording, words.cert];
    are_apart(&[words.to], &inputs, words.job.netlists)
}
