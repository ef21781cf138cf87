//! `repair`: reads a netlist and a recording of it, and writes the repaired recording, the code that forces a simulator
//! to show it, and its certificate.

ghost use Rattle.std.specs.Prelude.{◌↔◌, ◌≢◌, ◌≤◌, [], ◌∷◌, IsTrue, map, string_bytes};
ghost use Rattle.base_line.specs.Apart.{AreApart};
ghost use Rattle.wave_proved.specs.Contents.{AreLimits, AreLimits-prop};

use crate::limits::limits_of;
use crate::lines::lines_of;
use crate::repaired::repaired;
use base_line::{Kind, Line, Opt, are_apart};
use base_run::{Ready, Refusal};
use base_shelf::{Shelf, Sink};
use cmd_phases::{RECORDING_BYTES, Refused, agreed_of};
use cmd_set::{Form, Inputs, Run};
use cmd_words::{
    CONFLICTS, ENUMERATE, Form as CertForm, JobWords, REPORT, form_of, job_of, job_options, needs,
    takes,
};
use law_model::Limits;
use report_bits::ReportLines;
use std::alloc::Global;

static OPTIONS: &[Opt<'static>] = job_options![
    needs!("vcd", Kind::Writes),
    needs!("code", Kind::Writes),
    needs!("cert", Kind::Writes),
    takes!("form", Kind::Number(1, 2)),
    CONFLICTS,
    ENUMERATE,
    REPORT
];

/// The words of `repair`.
#[derive(Clone, Copy, Debug, Drop)]
pub struct Repair<'a> {
    pub job: JobWords<'a>,
    /// The file of the repaired recording.
    pub vcd: &'a str,
    /// The file of the force code.
    pub code: &'a str,
    /// The file of the certificate.
    pub cert: &'a str,
    /// The form of the certificate.
    pub form: CertForm,
    /// How places are decided.
    pub limits: Limits,
    /// The lines of bits in the report.
    pub lines: ReportLines,
    ghost limits_fit: { AreLimits limits } by { AreLimits-prop limits },
    ghost code_apart: { code.now ≢ vcd.now },
    ghost cert_apart: { cert.now ≢ vcd.now },
    ghost cert_too: { cert.now ≢ code.now },
}

impl<'a> Run<'a> for Repair<'a> {
    ghost use Rattle.cmd_program.specs.Headline.{repair};
    ghost use Rattle.cmd_program.specs.Repair.{repair_values};

    type Cause = Refused;

    ghost command = { repair };

    ghost values = { repair_values };

    fn form() -> Form<'a> {
        Form {
            word: "repair",
            options: OPTIONS,
            files: true,
        }
    }

    fn of_line(line: &Line<'a>, files: &'a [String]) -> Option<Self> {
        let job = job_of(line, files)?;
        let vcd = line.get("vcd")?;
        let code = line.get("code")?;
        let cert = line.get("cert")?;
        let form = form_of(line.get("form"))?;
        let limits = limits_of(line)?;
        let lines = lines_of(line.get("report"))?;
        if !is_apart(&job, vcd, code, cert) {
            return None;
        }
        Some(Repair {
            job,
            vcd,
            code,
            cert,
            form,
            limits,
            lines,
        })
    }

    fn inputs(&self) -> Inputs<'a> {
        Inputs {
            first: Some(self.job.recording),
            second: None,
            rest: self.job.netlists,
            most: RECORDING_BYTES,
        }
    }

    fn prepare<S: Shelf, O: Sink>(
        &self,
        alloc: Global,
        shelf: &mut S,
        out: &mut O,
    ) -> Result<Ready<'_>, Refusal<Refused>> {
        let agreed = agreed_of(alloc, shelf, &self.job)?;
        repaired(alloc, self, &agreed, out)
    }
}

fn is_apart(job: &JobWords<'_>, vcd: &str, code: &str, cert: &str) -> bool
    ensures { IsTrue result ↔ AreApart (vcd.now ∷ code.now ∷ cert.now ∷ [])
        (job.now.recording.now ∷ map string_bytes job.now.netlists.now) }
{
    are_apart(&[vcd, code, cert], &[job.recording], job.netlists)
}
