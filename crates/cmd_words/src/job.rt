//! The words of every command that reads a netlist and a recording of it.

ghost use Rattle.std.specs.Prelude.{◌≡◌, ◌<◌, IfSome, IfNone, length, map, string_bytes};
ghost use Rattle.base_line.specs.Read.{options_by, value_of};
ghost use Rattle.cmd_words.specs.Words.{GivesJob, JobValues, job_values};

use crate::typed::{count_of, levels_of, places_of, start_of, undriven_of};
use crate::words::JobWords;
use base_line::Line;

/// The most rounds of a moment, and how many there are where none are given.
const MOST_ROUNDS: u32 = 16;

const ROUNDS: u32 = 4;

/// What the options name together with the FILEs, none where one lacks or has no value that it may have.
pub fn job_of<'a>(line: &Line<'a>, files: &'a [String]) -> Option<JobWords<'a>>
    requires { 0 < length files.now }
    ensures files { IfSome result (λ words. (job_values words).netlists ≡ map string_bytes files.now) }
    ensures gives { IfSome result (λ words. GivesJob (options_by (value_of line.now)) (job_values words)) }
    ensures none { IfNone result ((job : JobValues) → GivesJob (options_by (value_of line.now)) job → ⊥) }
{
    Some(JobWords {
        recording: line.get("record")?,
        scope: line.get("scope")?,
        top: line.get("top")?,
        rounds: count_of(line.get("rounds"), ROUNDS, MOST_ROUNDS)?,
        places: places_of(line)?,
        start: start_of(line.get("start"))?,
        levels: levels_of(line.get("levels"))?,
        undriven: undriven_of(line.get("undriven"))?,
        netlists: files,
    })
}
