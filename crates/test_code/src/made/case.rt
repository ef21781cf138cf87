//! A case: what is made, and what must come.

use crate::made::task::{Task, made_text};
use base_lists::Memory;
use std::alloc::Global;
use std::str;
use test_cases::{Part, PartKind, Report, Section};

/// Goes over the parts of a case: each that says what must come is compared with what came.
pub fn run_case(alloc: Global, report: &mut Report, section: Section<'_>) -> Result<(), Memory> {
    let mut task = Task::new();
    for part in section.parts() {
        match part.kind {
            PartKind::Words => take_words(&mut task, text_of(part.head)),
            PartKind::File => task.netlist = Some(part.content(alloc)?),
            PartKind::Want => compare_part(alloc, report, &task, part)?,
        }
    }
    Ok(())
}

/// The text of some bytes; those that are none are empty.
fn text_of(bytes: &[u8]) -> &str {
    str::from_utf8(bytes).unwrap_or("")
}

/// A word, and what stands after it.
fn first_word(words: &str) -> (&str, &str) {
    words.split_once(' ').unwrap_or((words, ""))
}

/// `make NUMBER GATES`
fn take_words(task: &mut Task, words: &str) {
    let (number, gates) = first_word(first_word(words).1);
    task.number = number.parse::<u64>().unwrap_or(0);
    task.gates = gates.parse::<u32>().unwrap_or(0);
}

fn compare_part(
    alloc: Global,
    report: &mut Report,
    task: &Task,
    part: Part<'_>,
) -> Result<(), Memory> {
    let (kind, lines) = first_word(text_of(part.head));
    let count = lines.parse::<usize>().unwrap_or(usize::MAX);
    let want = part.content(alloc)?;
    let got = made_text(alloc, task, kind)?;
    let line = part.line.saturating_add(1);
    report.compare(line, want.as_slice(), first_lines(got.as_slice(), count))?;
    report.end_case();
    Ok(())
}

/// The first so many lines of a text.
fn first_lines(text: &[u8], count: usize) -> &[u8] {
    let mut left = count;
    'bytes: for (at, byte) in text.iter().enumerate() {
        if *byte == b'\n' {
            if left <= 1 {
                return &text[..at + 1];
            }
            left -= 1;
        }
    }
    text
}
