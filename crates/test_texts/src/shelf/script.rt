//! Scripts: a line for each call, with what it must answer.
//!
//! Setting up are `pieces 1 3`, `put NAME "TEXT"`, `long NAME COUNT`, `fail CALL CALL ..`, `fail sink CALL ..`. Calls
//! are
//! `open NAME`, `read BYTES`, `create NAME`, `close`, `put_file NAME`, `discard`, `get NAME`, `written NAME`, `faults`,
//! `read_all LIMIT NAME`, `write_all NAME "TEXT"`, `print_all "TEXT"`, `deliver ONE TWO REPORT` (the texts of the files
//! `one` and `two`, and what is printed), `printed` and `sink faults`, each with ` -> ANSWER` after it.

use crate::shelf::calls::Outside;
use std::alloc::{AllocError, Global};
use std::str;
use test_cases::{Part, Report, Section};

/// Runs a section for each number of bytes that its line `pieces 1 3 4096` lets a call move, or for 3.
pub fn run_section(
    alloc: Global,
    report: &mut Report,
    section: Section<'_>,
) -> Result<(), AllocError> {
    for piece in pieces_of(alloc, section)? {
        let mut outside = Outside::new(alloc, piece);
        for part in section.parts() {
            run_line(report, &mut outside, part)?;
        }
        report.end_case();
    }
    Ok(())
}

/// The numbers of a line of them.
fn numbers_of(alloc: Global, words: &str) -> Result<Vec<u64>, AllocError> {
    let mut numbers = Vec::new(alloc);
    for word in words.split(' ') {
        if let Ok(number) = word.parse::<u64>() {
            numbers.push(number)?;
        }
    }
    Ok(numbers)
}

fn pieces_of(alloc: Global, section: Section<'_>) -> Result<Vec<u64>, AllocError> {
    for part in section.parts() {
        if let Some(words) = text_of(part.head).strip_prefix("pieces ") {
            return numbers_of(alloc, words);
        }
    }
    numbers_of(alloc, "3")
}

/// The text of a line; one that is none is empty.
fn text_of(line: &[u8]) -> &str {
    str::from_utf8(line).unwrap_or("")
}

/// Does what a line says, and compares what it answered.
fn run_line(report: &mut Report, outside: &mut Outside, part: Part<'_>) -> Result<(), AllocError> {
    let line = text_of(part.head);
    let (call, want) = line.split_once(" -> ").unwrap_or((line, "ok"));
    let (verb, rest) = call.split_once(' ').unwrap_or((call, ""));
    let answer = outside.call(verb, rest)?;
    report.compare(part.line, want.as_bytes(), answer.words())
}
