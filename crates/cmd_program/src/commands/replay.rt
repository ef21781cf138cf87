//! `replay`: reads a netlist, a recording of it and code that forces its nets, and writes what the replay then shows.

ghost use Rattle.std.specs.Prelude.{◌↔◌, [], ◌∷◌, IsTrue, map, string_bytes};
ghost use Rattle.base_line.specs.Apart.{AreApart};

use crate::replayed::replay_job;
use base_line::{Kind, Line, Opt, are_apart};
use base_run::{Ready, Refusal};
use base_shelf::{Shelf, Sink};
use cmd_phases::{Refused, TEXT_BYTES, job_of};
use cmd_set::{Form, Inputs, Run};
use cmd_words::{JobWords, job_of as job_words, job_options, needs};
use std::alloc::Global;

static OPTIONS: &[Opt<'static>] = job_options![
    needs!("code", Kind::Reads),
    needs!("vcd", Kind::Writes)
];

/// The words of `replay`.
#[derive(Clone, Copy, Debug, Drop)]
pub struct Replay<'a> {
    pub job: JobWords<'a>,
    /// The file of the force code.
    pub code: &'a str,
    /// The file of the recording that is made.
    pub vcd: &'a str,
}

impl<'a> Run<'a> for Replay<'a> {
    ghost use Rattle.cmd_program.specs.Replay.{replay, replay_values};

    type Cause = Refused;

    ghost command = { replay };

    ghost values = { replay_values };

    fn form() -> Form<'a> {
        Form {
            word: "replay",
            options: OPTIONS,
            files: true,
        }
    }

    fn of_line(line: &Line<'a>, files: &'a [String]) -> Option<Self> {
        let words = Replay {
            job: job_words(line, files)?,
            code: line.get("code")?,
            vcd: line.get("vcd")?,
        };
        if is_apart(words) { Some(words) } else { None }
    }

    fn inputs(&self) -> Inputs<'a> {
        Inputs {
            first: Some(self.code),
            second: Some(self.job.recording),
            rest: self.job.netlists,
            most: TEXT_BYTES,
        }
    }

    fn prepare<S: Shelf, O: Sink>(
        &self,
        alloc: Global,
        shelf: &mut S,
        _out: &mut O,
    ) -> Result<Ready<'_>, Refusal<Refused>> {
        let job = job_of(alloc, shelf, &self.job)?;
        replay_job(alloc, shelf, self, &job)
    }
}

fn is_apart(words: Replay<'_>) -> bool
    ensures { IsTrue result ↔ AreApart (words.entry.vcd.now ∷ [])
        (words.entry.job.recording.now ∷ words.entry.code.now ∷ map string_bytes words.entry.job.netlists.now) }
{
    let inputs = [words.job.recording, words.code];
    are_apart(&[words.vcd], &inputs, words.job.netlists)
}
