//! The program as one call.

ghost use Rattle.std.specs.Prelude.{◌≡◌, ◌≤◌, List, ℕ};
ghost use Rattle.base_run.specs.Ends.{Comes, RanWords};
ghost use Rattle.base_run.specs.Rows.{start_of, start_with};
ghost use Rattle.cmd_trim.specs.Commands.{commands};
ghost use Rattle.cmd_trim.specs.Done.{Done, RefusesText};
ghost use Rattle.cmd_trim.specs.Words.{Means, trim_values};

use crate::command::Trim;
use crate::trim_words::TrimWords;
use crate::words::{options, read_trim_words};
use base_line::usage_of_line;
use base_run::{refuse_memory, refuse_words, run_command};
use base_shelf::{Shelf, Sink};
use std::alloc::{AllocError, Global};

/// Runs the words on the shelf, prints to the sink, and answers the exit status.
pub fn run<S: Shelf, O: Sink>(alloc: Global, words: &[String], shelf: &mut S, out: &mut O) -> u8
    ensures comes { Comes commands (start_of words.now S.told O.told (S.view shelf.old) (O.view out.old))
        (S.view shelf.new) (O.view out.new) result }
    ensures done { result ≡ 0 → Done (start_of words.now S.told O.told (S.view shelf.old) (O.view out.old))
        (S.view shelf.new) }
    ensures refused { 5 ≤ result → result ≤ 19
        → RefusesText (start_of words.now S.told O.told (S.view shelf.old) (O.view out.old)) result }
{
    ended(alloc, words, shelf, out)
}

/// The usage: for people to read, a line. Its words are clap's own, and nothing is promised of them.
pub fn usage(alloc: Global) -> Result<String, AllocError> {
    usage_of_line(alloc, "xrtrim", options(), true)
}

/// The run, by its row.
fn ended<S: Shelf, O: Sink>(alloc: Global, words: &[String], shelf: &mut S, out: &mut O) -> u8
    ensures { RanWords commands (start_of words.now S.told O.told (S.view shelf.old) (O.view out.old))
        (S.view shelf.new) (O.view out.new) result }
{
    match read_trim_words(alloc, words) {
        Ok(Some(words)) => run_words(alloc, words, shelf, out),
        Ok(None) => refuse_words(out),
        Err(_) => refuse_memory(out),
    }
}

/// Runs a line of the set.
fn run_words<S: Shelf, O: Sink>(
    alloc: Global,
    words: TrimWords<'_>,
    shelf: &mut S,
    out: &mut O,
) -> u8
    ensures { (line : List (List ℕ)) → Means line (trim_values words.entry)
        → RanWords commands (start_with line S.told O.told (S.view shelf.old) (O.view out.old))
        (S.view shelf.new) (O.view out.new) result }
{
    run_command(alloc, &Trim { words }, shelf, out)
}
