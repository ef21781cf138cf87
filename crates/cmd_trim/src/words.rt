//! The words of a command line.

ghost use Rattle.std.specs.Prelude.{◌≡◌, ◌<◌, ◌↔◌, [], ◌∷◌, List, IfNone, IfOk, IfSome, IsSome, IsTrue, length};
ghost use Rattle.std.specs.Prelude.{map, string_bytes, true};
ghost use Rattle.base_line.specs.Tables.{plain};
ghost use Rattle.base_line.specs.Line.{Text, are_options};
ghost use Rattle.base_line.specs.Read.{value_of};
ghost use Rattle.cmd_trim.specs.Words.{AreLists, AreOutside, Gives, IsTrimLine, Means, MeansOnly, TrimValues};
ghost use Rattle.cmd_trim.specs.Words.{table, text_in, trim_values};

use crate::names::are_names;
use crate::trim_words::TrimWords;
use base_line::{Kind, Line, Opt, are_apart, files_in, read_line};
use base_lists::Memory;
use std::alloc::Global;

static OPTIONS: [Opt<'static>; 4] = [
    Opt {
        name: "top",
        required: true,
        kind: Kind::Name,
    },
    Opt {
        name: "to",
        required: true,
        kind: Kind::Writes,
    },
    Opt {
        name: "stub",
        required: false,
        kind: Kind::Name,
    },
    Opt {
        name: "supply",
        required: false,
        kind: Kind::Name,
    },
];

/// The options of a line.
pub fn options<'a>() -> &'a [Opt<'a>]
    ensures table { map plain result.now ≡ table }
    ensures order { are_options result.now ≡ true }
{
    &OPTIONS
}

/// Reads the words, or answers that they aren't in the set.
pub fn read_trim_words(alloc: Global, words: &[String]) -> Result<Option<TrimWords<'_>>, Memory>
    ensures set { IfOk result (λ o. IfSome o (λ w. Means (map string_bytes words.now) (trim_values w))) }
    ensures only { IfOk result (λ o. IfSome o (λ w. MeansOnly (map string_bytes words.now) (trim_values w))) }
    ensures none { IfOk result (λ o. IfNone o (AreOutside (map string_bytes words.now))) }
{
    match read_line(alloc, "xrtrim", options(), true, words)? {
        Some(line) => Ok(words_in(words, &line)),
        None => Ok(None),
    }
}

/// The words of a line of the options, none where one has no value that it may have.
fn words_in<'a>(words: &'a [String], line: &Line<'a>) -> Option<TrimWords<'a>>
    requires { IsTrimLine (map string_bytes words.now) line.now }
    ensures set { IfSome result (λ w. Means (map string_bytes words.now) (trim_values w)) }
    ensures only { IfSome result (λ w. MeansOnly (map string_bytes words.now) (trim_values w)) }
    ensures none { IfNone result (AreOutside (map string_bytes words.now)) }
{
    words_of(line, files_in(words, line))
}

/// What the options name together with the FILEs, none where one lacks, a list has an empty name, there are supplies
/// without stubs, or the file that is written is a FILE.
fn words_of<'a>(line: &Line<'a>, files: &'a [String]) -> Option<TrimWords<'a>>
    requires { 0 < length files.now }
    ensures files { IfSome result (λ w. (trim_values w).files ≡ map string_bytes files.now) }
    ensures gives { IfSome result (λ w. Gives (value_of line.now) (trim_values w)) }
    ensures none { IfNone result ((v : TrimValues) → v.files ≡ map string_bytes files.now
        → Gives (value_of line.now) v → ⊥) }
{
    let top = line.get("top")?;
    let to = line.get("to")?;
    let stubs = line.get("stub");
    let supplies = line.get("supply");
    if !are_lists(stubs, supplies) {
        return None;
    }
    if !are_apart(&[to], &[], files) {
        return None;
    }
    Some(TrimWords {
        top,
        to,
        stubs,
        supplies,
        files,
    })
}

/// Whether lists have names alone, and there are supplies only where there are stubs.
fn are_lists(stubs: Option<&str>, supplies: Option<&str>) -> bool
    ensures { IsTrue result ↔ AreLists (text_in stubs.entry) (text_in supplies.entry) }
{
    all_three(
        are_names(stubs),
        are_names(supplies),
        is_used(stubs, supplies),
    )
}

fn is_used(stubs: Option<&str>, supplies: Option<&str>) -> bool
    ensures { IsTrue result ↔ (IsSome (text_in supplies.entry) → IsSome (text_in stubs.entry)) }
{
    match supplies {
        Some(_) => stubs.is_some(),
        None => true,
    }
}

fn all_three(first: bool, second: bool, third: bool) -> bool
    ensures { IsTrue result ↔ (IsTrue first × IsTrue second × IsTrue third) }
{
    first && second && third
}
