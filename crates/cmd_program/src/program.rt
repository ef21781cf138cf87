//! The program as one call.

ghost use Rattle.std.specs.Prelude.{◌≡◌, ◌≤◌, List, ℕ, IfOk, map, string_bytes};
ghost use Rattle.base_run.specs.Ends.{Comes, RanWords};
ghost use Rattle.base_run.specs.Rows.{start_of, start_with};
ghost use Rattle.cmd_set.specs.Command.{AreInputs};
ghost use Rattle.cmd_set.specs.Set.{AreInputsOf, Done, EndsInOrder, RanAs, RefusesTexts, commands};
ghost use Rattle.cmd_program.specs.Commands.{command_of, reporting};

use crate::commands::Name;
use crate::commands::audit::Audit;
use crate::commands::blame::Blame;
use crate::commands::check::Check;
use crate::commands::export::Export;
use crate::commands::fix::Fix;
use crate::commands::make::Make;
use crate::commands::prove::Prove;
use crate::commands::repair::Repair;
use crate::commands::replay::Replay;
use crate::commands::upgrade::Upgrade;
use crate::names::command_in;
use base_lists::Memory;
use base_run::refuse_words;
use base_shelf::{Shelf, Sink};
use cmd_set::{Inputs, inputs_as, run_as};
use std::alloc::Global;

/// Runs the words on the shelf, prints to the sink, and answers the exit status.
pub fn run<S: Shelf, O: Sink>(alloc: Global, words: &[String], shelf: &mut S, out: &mut O) -> u8
    ensures comes { Comes (commands command_of reporting)
        (start_of words.now S.told O.told (S.view shelf.old) (O.view out.old))
        (S.view shelf.new) (O.view out.new) result }
    ensures done { result ≡ 0 → Done command_of
        (start_of words.now S.told O.told (S.view shelf.old) (O.view out.old))
        (S.view shelf.new) (O.view out.new) }
    ensures refused { 5 ≤ result → result ≤ 19 → RefusesTexts command_of reporting
        (start_of words.now S.told O.told (S.view shelf.old) (O.view out.old))
        (S.view shelf.new) (O.view out.new) result }
    ensures complete { EndsInOrder command_of reporting
        (start_of words.now S.told O.told (S.view shelf.old) (O.view out.old))
        (S.view shelf.new) (O.view out.new) result }
{
    ended(alloc, words, shelf, out)
}

/// The run, by its row.
fn ended<S: Shelf, O: Sink>(alloc: Global, words: &[String], shelf: &mut S, out: &mut O) -> u8
    ensures { RanWords (commands command_of reporting)
        (start_of words.now S.told O.told (S.view shelf.old) (O.view out.old))
        (S.view shelf.new) (O.view out.new) result }
{
    match command_in(words) {
        Some((name, rest)) => run_named(alloc, name, rest, shelf, out),
        None => refuse_words(out),
    }
}

/// Runs a command on the words after it.
fn run_named<S: Shelf, O: Sink>(
    alloc: Global,
    name: Name,
    rest: &[String],
    shelf: &mut S,
    out: &mut O,
) -> u8
    ensures { (line : List (List ℕ)) → RanAs (command_of name) reporting (map string_bytes rest.now)
        (start_with line S.told O.told (S.view shelf.old) (O.view out.old)) (S.view shelf.new) (O.view out.new) result }
{
    match name {
        Name::Repair => run_as::<Repair<'_>, S, O>(alloc, rest, shelf, out),
        Name::Replay => run_as::<Replay<'_>, S, O>(alloc, rest, shelf, out),
        Name::Check => run_as::<Check<'_>, S, O>(alloc, rest, shelf, out),
        Name::Make => run_as::<Make<'_>, S, O>(alloc, rest, shelf, out),
        Name::Export => run_as::<Export<'_>, S, O>(alloc, rest, shelf, out),
        Name::Prove => run_as::<Prove<'_>, S, O>(alloc, rest, shelf, out),
        Name::Audit => run_as::<Audit<'_>, S, O>(alloc, rest, shelf, out),
        Name::Blame => run_as::<Blame<'_>, S, O>(alloc, rest, shelf, out),
        Name::Fix => run_as::<Fix<'_>, S, O>(alloc, rest, shelf, out),
        Name::Upgrade => run_as::<Upgrade<'_>, S, O>(alloc, rest, shelf, out),
    }
}

/// The files that the command reads which the words mean, none where they mean no command.
pub fn inputs_of<'a>(alloc: Global, words: &'a [String]) -> Result<Option<Inputs<'a>>, Memory>
    ensures { IfOk result (AreInputsOf command_of (map string_bytes words.now)) }
{
    match command_in(words) {
        Some((name, rest)) => inputs_named(alloc, name, rest),
        None => Ok(None),
    }
}

/// The files that a command reads by the words after it, none where these are no line of it.
fn inputs_named<'a>(
    alloc: Global,
    name: Name,
    rest: &'a [String],
) -> Result<Option<Inputs<'a>>, Memory>
    ensures { IfOk result (AreInputs (command_of name) (map string_bytes rest.now)) }
{
    match name {
        Name::Repair => inputs_as::<Repair<'_>>(alloc, rest),
        Name::Replay => inputs_as::<Replay<'_>>(alloc, rest),
        Name::Check => inputs_as::<Check<'_>>(alloc, rest),
        Name::Make => inputs_as::<Make<'_>>(alloc, rest),
        Name::Export => inputs_as::<Export<'_>>(alloc, rest),
        Name::Prove => inputs_as::<Prove<'_>>(alloc, rest),
        Name::Audit => inputs_as::<Audit<'_>>(alloc, rest),
        Name::Blame => inputs_as::<Blame<'_>>(alloc, rest),
        Name::Fix => inputs_as::<Fix<'_>>(alloc, rest),
        Name::Upgrade => inputs_as::<Upgrade<'_>>(alloc, rest),
    }
}
