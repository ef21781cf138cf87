//! The minimal choices of tables.

ghost use Rattle.std.specs.Prelude.{◌≤◌, ◌<◌, IfSome};
ghost use Rattle.decide_choices.specs.Choices.{IsValueTable};

use crate::words::{first_word, is_word, text_of};
use base_lists::Memory;
use decide_choices::{Choice, minimal_choices};
use design_cell::Value;
use std::alloc::{AllocError, Global};
use std::fmt::Write;
use test_cases::{Line, Lines, Report};

/// Compares each line, `TABLE BIT = CHOICES`, with what comes.
pub fn run_choices(alloc: Global, report: &mut Report, text: &[u8]) -> Result<(), Memory> {
    for line in Lines::new(text) {
        if !line.is_idle() {
            run_line(alloc, report, line)?;
        }
    }
    Ok(())
}

fn run_line(alloc: Global, report: &mut Report, line: Line<'_>) -> Result<(), Memory> {
    let got = line_of(alloc, text_of(line.text))?;
    report.compare(line.number, line.text, got.as_str().as_bytes())?;
    report.end_case();
    Ok(())
}

fn line_of(alloc: Global, line: &str) -> Result<String, Memory> {
    let mut out = String::new(alloc);
    put_line(alloc, &mut out, line)?;
    Ok(out)
}

fn put_line(alloc: Global, out: &mut String, line: &str) -> Result<(), Memory> {
    let (table, rest) = first_word(line);
    let (bit, _) = first_word(rest);
    write!(out, "{table} {bit} =")?;
    let values = values_of(alloc, table)?;
    put_choices(alloc, out, values.as_slice(), is_word(bit, "1"))
}

fn put_choices(alloc: Global, out: &mut String, values: &[Value], bit: bool) -> Result<(), Memory> {
    let words = words_of(alloc, values, bit)?;
    Ok(put_words(out, words.as_slice())?)
}

fn put_words(out: &mut String, words: &[String]) -> Result<(), AllocError> {
    for word in words {
        out.push(' ')?;
        out.push_str(word.as_str())?;
    }
    Ok(())
}

fn values_of(alloc: Global, table: &str) -> Result<Vec<Value>, AllocError> {
    let mut values = Vec::new(alloc);
    for byte in table.as_bytes() {
        values.push(value_of(*byte))?;
    }
    Ok(values)
}

fn value_of(letter: u8) -> Value {
    match letter {
        b'0' => Value::Zero,
        b'1' => Value::One,
        _ => Value::X,
    }
}

/// The choices as words, in the order of their letters.
fn words_of(alloc: Global, values: &[Value], bit: bool) -> Result<Vec<String>, Memory> {
    match arguments_of(values) {
        Some(count) => sorted_words(alloc, values, bit, count),
        None => Ok(Vec::new(alloc)),
    }
}

fn sorted_words(
    alloc: Global,
    values: &[Value],
    bit: bool,
    count: usize,
) -> Result<Vec<String>, Memory>
    requires { IsValueTable count values.now }
{
    let choices = minimal_choices(alloc, values, bit)?;
    let mut words = unsorted_words(alloc, choices.as_slice(), count)?;
    words.sort()?;
    Ok(words)
}

fn unsorted_words(
    alloc: Global,
    choices: &[Choice],
    count: usize,
) -> Result<Vec<String>, AllocError>
    requires { count ≤ 13 }
{
    let mut words = Vec::new(alloc);
    for choice in choices {
        words.push(word_of(alloc, *choice, count)?)?;
    }
    Ok(words)
}

/// How many arguments a table has, at most 3.
fn arguments_of(values: &[Value]) -> Option<usize>
    ensures { IfSome result (λ count. IsValueTable count values.now) }
{
    match values.len() {
        1 => Some(0),
        2 => Some(1),
        4 => Some(2),
        8 => Some(3),
        _ => None,
    }
}

fn word_of(alloc: Global, choice: Choice, count: usize) -> Result<String, AllocError>
    requires { count ≤ 13 }
{
    let mut word = String::new(alloc);
    for argument in 0..count {
        word.push(letter_of(choice, argument))?;
    }
    Ok(word)
}

fn letter_of(choice: Choice, argument: usize) -> char
    requires { argument < 13 }
{
    match (choice.has(argument), choice.bit(argument)) {
        (false, _) => '-',
        (true, false) => '0',
        (true, true) => '1',
    }
}
