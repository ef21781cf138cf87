//! A line of the set, and what its words name.

ghost use Rattle.std.specs.Prelude.{◌≡◌, ◌↔◌, ◌++◌, [], List, IsTrue, IfOk, IfSome, IfNone, true};
ghost use Rattle.std.specs.Prelude.{length, map, option_map, string_bytes, unwrap_or};
ghost use Rattle.std.specs.List.{All, AllByRecursion};
ghost use Rattle.base_line.specs.Line.{IsOutside, IsValue, Text, are_options};
ghost use Rattle.base_line.specs.Told.{is_word};
ghost use Rattle.base_line.specs.Read.{HasFitting, HasOnly, IsFitting, ReadsLine, files_in, files_of, value_of};

use crate::option::Opt;
use crate::told::command_of;
use crate::values::{fits, is_value};
use base_lists::Memory;
use clap::ArgMatches;
use clap::error::ErrorKind;
use std::alloc::Global;

/// The words of a line of the set.
#[derive(Drop)]
pub struct Line<'a> {
    matches: ArgMatches<'a>,
}

impl<'a> Line<'a> {
    /// The value that is given for a name, if any.
    pub fn get(&self, name: &str) -> Option<&'a str>
        ensures { option_map (λ s. s.now) result ≡ value_of self.now name.now }
    {
        self.matches.get_str(name)
    }

    /// The FILEs, if any.
    pub fn files(&self) -> Option<&[&'a str]>
        ensures { unwrap_or (option_map (λ files. map (λ s. s.now) files.now) result) [] ≡ files_of self.now }
    {
        self.matches.get_strs("FILE")
    }
}

/// The FILEs, which stand last.
pub fn files_in<'a>(words: &'a [String], line: &Line<'a>) -> &'a [String]
    requires { (before : List Text) × (map string_bytes words.now ≡ before ++ files_of line.now) }
    ensures { map string_bytes result.now ≡ files_of line.now }
{
    let (_, files) = words.split_at(words.len() - count_files(line));
    files
}

fn count_files(line: &Line<'_>) -> usize
    ensures { result ≡ length (files_of line.now) }
{
    match line.files() {
        Some(files) => files.len(),
        None => 0,
    }
}

/// Reads the words after the command, or answers that they aren't in the set of these options.
pub fn read_line<'a>(
    alloc: Global,
    name: &'a str,
    options: &'a [Opt<'a>],
    files: bool,
    words: &'a [String],
) -> Result<Option<Line<'a>>, Memory>
    requires { are_options options.now ≡ true }
    ensures set { IfOk result (λ o. IfSome o (ReadsLine options.now files (map string_bytes words.now))) }
    ensures only { IfOk result (λ o. IfSome o (HasOnly options.now files (map string_bytes words.now))) }
    ensures none { IfOk result (λ o. IfNone o (IsOutside options.now files (map string_bytes words.now))) }
{
    if !are_words(words) {
        return Ok(None);
    }
    let command = command_of(alloc, name, options, files)?;
    match command.try_get_matches_from(words) {
        Ok(matches) => Ok(line_of(options, matches)),
        Err(error) => match error.kind() {
            ErrorKind::OutOfMemory => Err(Memory),
            _ => Ok(None),
        },
    }
}

/// Whether each word that begins with `-` begins with `--` and goes on.
fn are_words(words: &[String]) -> bool
    ensures { IsTrue result ↔ All (λ w. is_word (string_bytes w) ≡ true) words.now }
{
    words.iter().all(|word| is_word(word.as_str()))
}

fn is_word(word: &str) -> bool
    ensures { result ≡ is_word word.now }
{
    match word.as_bytes() {
        [] => true,
        [b'-', b'-', _, ..] => true,
        [first, ..] => *first != b'-',
    }
}

/// The line, where each value is one that its option takes.
fn line_of<'a>(options: &[Opt<'a>], matches: ArgMatches<'a>) -> Option<Line<'a>>
    ensures some { IfSome result (λ line. (line.matches ≡ matches.entry) × HasFitting options.now matches.entry
        × AllByRecursion IsValue (files_in matches.entry)) }
    ensures none { IfNone result (HasFitting options.now matches.entry → AllByRecursion IsValue (files_in matches.entry)
        → ⊥) }
{
    if have_fitting(options, &matches) && have_values(&matches) {
        Some(Line { matches })
    } else {
        None
    }
}

fn have_fitting(options: &[Opt<'_>], matches: &ArgMatches<'_>) -> bool
    ensures { IsTrue result ↔ All (IsFitting matches.now) options.now }
{
    options.iter().all(|option| is_fitting(option, matches))
}

fn is_fitting(option: &Opt<'_>, matches: &ArgMatches<'_>) -> bool
    ensures { IsTrue result ↔ IsFitting matches.now option.now }
{
    match matches.get_str(option.name) {
        Some(value) => is_value(value) && fits(option.kind, value),
        None => true,
    }
}

fn have_values(matches: &ArgMatches<'_>) -> bool
    ensures { IsTrue result ↔ AllByRecursion IsValue (files_in matches.now) }
{
    match matches.get_strs("FILE") {
        Some(files) => are_values(files),
        None => true,
    }
}

fn are_values(files: &[&str]) -> bool
    ensures { IsTrue result ↔ All (λ file. IsValue file.now) files.now }
{
    files.iter().all(|file| is_value(file))
}
