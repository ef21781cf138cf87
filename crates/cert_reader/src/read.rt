//! A certificate by its text, line by line.

ghost use Rattle.std.specs.Prelude.{◌≡◌, ◌<◌, ◌^◌, [], cond, length, IfErr, IfOk, MatchResult, OnOk};
ghost use Rattle.cert_writer.specs.declared.cert.Cert.{Cert as ACert};
ghost use Rattle.cert_reader.specs.declared.refusal.TextErr.TheVariants.{Memory as OutOfMemory};
ghost use Rattle.cert_reader.specs.Machine.{all, cert_with, entry_lettered, form_of_title, has_turns, is_count};
ghost use Rattle.cert_reader.specs.Machine.{item_of, run, start, titled, within};
ghost use Rattle.cert_writer.specs.Pieces.{lines_in, words_in};
ghost use Rattle.cert_reader.specs.Reading.{Comes, Gives, ReadsLines, goes, next_state};
ghost use Rattle.cert_reader.specs.Refusal.{IsTextRefusal};
ghost use Rattle.cert_writer.specs.Wrong.{IsTextOf};

use crate::line::{end, head, line_of_letter};
use crate::lines::Lines;
use crate::numbers::numeral_within;
use crate::pieces::Words;
use crate::refusal::{LineErr, TextErr, WrongLine};
use crate::turn::{is_turn_letter, turn_of_letter};
use base_lists::Items;
use base_scan::is_word;
use cert_writer::{Cert, Entry, Form, Head};
use std::alloc::Global;

/// The certificate that a text stands for, or the number of its first wrong line. Takes the memory of the lines.
pub fn read_text(alloc: Global, text: &[u8]) -> Result<Cert, TextErr>
    ensures found { IfOk result (IsTextOf text.now) }
    ensures only { (cert : ACert) → IsTextOf text.now cert → MatchResult result (λ c. c ≡ cert) (λ e. e ≡ OutOfMemory) }
    ensures refused { IfErr result (IsTextRefusal text.now) }
{
    read_all(alloc, text)
}

fn read_all(alloc: Global, text: &[u8]) -> Result<Cert, TextErr>
    ensures comes { Comes (run start 1 (lines_in text.now)) result }
    ensures count { IfOk result (λ cert. length cert.entries < 2 ^ 64) }
{
    let mut lines = Lines::new(text);
    let form = title(&mut lines)?;
    let head = numbers(&mut lines, form)?;
    let entries = entries(alloc, &mut lines, form, head)?;
    finish(
        &lines,
        Cert {
            form,
            head,
            entries,
        },
    )
}

fn title(lines: &mut Lines<'_>) -> Result<Form, TextErr>
    ensures { ReadsLines start lines.old result (λ form. titled form) lines.new }
{
    let number = lines.number();
    let line = lines.next()?;
    match form_of_title(line) {
        Some(form) => Ok(form),
        None => Err(TextErr::Refused(WrongLine { line: number })),
    }
}

// title = "xrepair certificate 1" | "xrepair certificate 2"
fn form_of_title(line: &[u8]) -> Option<Form>
    ensures { result ≡ form_of_title line.now }
{
    if is_word(line, b"xrepair certificate 1") {
        return Some(Form::Lines);
    }
    if is_word(line, b"xrepair certificate 2") {
        return Some(Form::Turns);
    }
    None
}

fn numbers(lines: &mut Lines<'_>, form: Form) -> Result<Head, TextErr>
    ensures { ReadsLines (titled form) lines.old result (λ head. within form head []) lines.new }
{
    let number = lines.number();
    let line = lines.next()?;
    let mut words = Words::new(line);
    match head(&mut words) {
        Ok(head) => Ok(head),
        Err(e) => Err(e.at(number)),
    }
}

/// The lines and turns up to the last line, which has their number.
fn entries(
    alloc: Global,
    lines: &mut Lines<'_>,
    form: Form,
    head: Head,
) -> Result<Items<Entry>, TextErr>
    ensures reads { ReadsLines (within form head []) lines.old result (λ entries. all (cert_with form head entries))
        lines.new }
    ensures count { IfOk result (λ entries. length entries < 2 ^ 64) }
{
    let mut entries = Vec::new(alloc);
    'lines: loop {
        match next_item(alloc, lines, form, head, &entries)? {
            Some(entry) => entries.push(entry)?,
            None => return Ok(Items::from_vec(entries)),
        }
    }
}

/// One more line or turn, or none where the last line of the text stands.
fn next_item(
    alloc: Global,
    lines: &mut Lines<'_>,
    form: Form,
    head: Head,
    entries: &Vec<Entry>,
) -> Result<Option<Entry>, TextErr>
    ensures reads { ReadsLines (within form head entries.now.items) lines.old result (next_state form head entries.now.items)
        lines.new }
    ensures shortens { OnOk result (length lines.new.lines < length lines.old.lines) }
{
    let number = lines.number();
    let line = lines.next()?;
    match item(alloc, line, form, entries.len()) {
        Ok(found) => Ok(found),
        Err(e) => Err(e.at(number)),
    }
}

fn item(alloc: Global, line: &[u8], form: Form, count: usize) -> Result<Option<Entry>, LineErr>
    ensures { Gives result (item_of form count (words_in line.now)) }
{
    let mut words = Words::new(line);
    let letter = words.need()?;
    if is_word(letter, b"end") {
        end_of(&mut words, count)
    } else {
        Ok(Some(entry_of_letter(alloc, form, letter, &mut words)?))
    }
}

fn entry_of_letter(
    alloc: Global,
    form: Form,
    letter: &[u8],
    words: &mut Words<'_>,
) -> Result<Entry, LineErr>
    ensures { Gives result (entry_lettered form letter.now words.old) }
{
    if has_turns(form) && is_turn_letter(letter) {
        Ok(Entry::Turn(turn_of_letter(alloc, letter, words)?))
    } else {
        Ok(Entry::Line(line_of_letter(alloc, letter, words)?))
    }
}

fn has_turns(form: Form) -> bool
    ensures { result ≡ has_turns form }
{
    match form {
        Form::Lines => false,
        Form::Turns => true,
    }
}

// "end" number
fn end_of(words: &mut Words<'_>, count: usize) -> Result<Option<Entry>, LineErr>
    ensures { Gives result (cond (is_count count words.old) (Some None) None) }
{
    let word = words.need()?;
    end(words)?;
    match numeral_within(u64::MAX, word) {
        Some(number) if number == count as u64 => Ok(None),
        _ => Err(LineErr::Wrong),
    }
}

/// Nothing is left of the text.
#[tactic(auto, using(crate::proofs::PieceLaws::not_over))]
fn finish(lines: &Lines<'_>, cert: Cert) -> Result<Cert, TextErr>
    ensures comes { Comes (goes (all cert) lines.now) result }
    ensures same { IfOk result (λ c. c ≡ cert) }
{
    if lines.is_over() {
        Ok(cert)
    } else {
        Err(TextErr::Refused(WrongLine {
            line: lines.number(),
        }))
    }
}
