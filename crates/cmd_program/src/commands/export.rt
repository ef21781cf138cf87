//! `export`: reads a netlist and a recording of it, and writes the certificate of the repair, and for other solvers the
//! query and the log of each of its lines.

ghost use Rattle.std.specs.Prelude.{◌↔◌, ◌≤◌, ◌∷◌, IsTrue, map, string_bytes};
ghost use Rattle.std.specs.List.{All};
ghost use Rattle.cmd_program.specs.Free.{AreFree, BeginsWith, IsEnding, IsFree};
ghost use Rattle.wave_proved.specs.Contents.{AreLimits, AreLimits-prop};

use crate::exported::exported;
use crate::limits::limits_of;
use base_line::{Kind, Line, Opt};
use base_run::{Ready, Refusal};
use base_shelf::{Shelf, Sink};
use cmd_phases::{RECORDING_BYTES, Refused, agreed_of};
use cmd_set::{Form, Inputs, Run};
use cmd_words::{CONFLICTS, ENUMERATE, JobWords, job_of, job_options, needs};
use law_model::Limits;
use std::alloc::Global;

static OPTIONS: &[Opt<'static>] = job_options![needs!("to", Kind::Prefix), CONFLICTS, ENUMERATE];

/// The words of `export`.
#[derive(Clone, Copy, Debug, Drop)]
pub struct Export<'a> {
    pub job: JobWords<'a>,
    /// What the names of the files begin with.
    pub prefix: &'a str,
    /// How places are decided.
    pub limits: Limits,
    ghost limits_fit: { AreLimits limits } by { AreLimits-prop limits },
}

impl<'a> Run<'a> for Export<'a> {
    ghost use Rattle.cmd_program.specs.Export.{export, export_values};

    type Cause = Refused;

    ghost command = { export };

    ghost values = { export_values };

    fn form() -> Form<'a> {
        Form {
            word: "export",
            options: OPTIONS,
            files: true,
        }
    }

    fn of_line(line: &Line<'a>, files: &'a [String]) -> Option<Self> {
        let job = job_of(line, files)?;
        let prefix = line.get("to")?;
        let limits = limits_of(line)?;
        if !are_free(prefix, &job) {
            return None;
        }
        Some(Export {
            job,
            prefix,
            limits,
        })
    }

    fn inputs(&self) -> Inputs<'a> {
        Inputs {
            first: Some(self.job.recording),
            second: None,
            rest: self.job.netlists,
            most: RECORDING_BYTES,
        }
    }

    fn prepare<S: Shelf, O: Sink>(
        &self,
        alloc: Global,
        shelf: &mut S,
        out: &mut O,
    ) -> Result<Ready<'_>, Refusal<Refused>> {
        let agreed = agreed_of(alloc, shelf, &self.job)?;
        exported(alloc, self, &agreed, out)
    }
}

/// Whether no input has a name of those that may be written.
fn are_free(prefix: &str, job: &JobWords<'_>) -> bool
    ensures { IsTrue result ↔ AreFree prefix.now (job.now.recording.now ∷ map string_bytes job.now.netlists.now) }
{
    is_free(prefix, job.recording) && are_files_free(prefix, job.netlists)
}

fn are_files_free(prefix: &str, files: &[String]) -> bool
    ensures { IsTrue result ↔ All (λ file. IsFree prefix.now (string_bytes file)) files.now }
{
    files.iter().all(|file| is_free(prefix, file.as_str()))
}

fn is_free(prefix: &str, name: &str) -> bool
    ensures { IsTrue result ↔ IsFree prefix.now name.now }
{
    !begins_with(prefix, name)
}

fn begins_with(prefix: &str, name: &str) -> bool
    ensures { IsTrue result ↔ BeginsWith prefix.now name.now }
{
    match name.as_bytes().strip_prefix(prefix.as_bytes()) {
        Some(ending) => is_ending(ending),
        None => false,
    }
}

fn is_ending(ending: &[u8]) -> bool
    ensures { IsTrue result ↔ IsEnding ending.now }
{
    match ending {
        [b'-', ..] => true,
        _ => ending == b".xc".as_slice(),
    }
}
