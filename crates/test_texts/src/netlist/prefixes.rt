//! Each prefix of a text, with marks of what it comes to.

use crate::netlist::answer::parsed;
use netlist_reader::{NetlistFault, parse};
use netlist_tokens::LexErr;
use std::alloc::{AllocError, Global};
use test_cases::{Part, PartKind, Report, Section, section_cases};

/// Which mark a prefix gets: how far before its end it is refused, or the first letter of the words.
#[derive(Clone, Copy)]
enum Show {
    At,
    Why,
}

/// Goes over a text line by line, a section for each.
pub fn run_prefixes(alloc: Global, report: &mut Report, cases: &[u8]) -> Result<(), AllocError> {
    let mut text = Vec::new(alloc);
    for section in section_cases(cases) {
        run_line(alloc, report, &mut text, section)?;
        report.end_case();
    }
    Ok(())
}

/// Puts the line after the text, and compares the marks of the prefixes that end within it.
fn run_line(
    alloc: Global,
    report: &mut Report,
    text: &mut Vec<u8>,
    section: Section<'_>,
) -> Result<(), AllocError> {
    let begin = text.len();
    for part in section.parts() {
        if part.kind == PartKind::Words {
            text.extend_from_slice(part.head)?;
            text.push(b'\n')?;
        } else {
            compare_marks(alloc, report, text.as_slice(), begin, part)?;
        }
    }
    Ok(())
}

fn compare_marks(
    alloc: Global,
    report: &mut Report,
    text: &[u8],
    begin: usize,
    part: Part<'_>,
) -> Result<(), AllocError> {
    let want = part.content(alloc)?;
    let mut got = if part.head == b"at".as_slice() {
        marks(alloc, text, begin, Show::At)?
    } else if part.head == b"why".as_slice() {
        marks(alloc, text, begin, Show::Why)?
    } else {
        Vec::from_slice(alloc, parsed(alloc, text)?.as_str().as_bytes())?
    };
    got.push(b'\n')?;
    report.compare(part.line.saturating_add(1), want.as_slice(), got.as_slice())
}

/// The marks of the prefixes from one on that ends before this byte.
fn marks(alloc: Global, text: &[u8], begin: usize, show: Show) -> Result<Vec<u8>, AllocError> {
    let mut marks = Vec::new(alloc);
    for cut in begin..text.len() {
        if let Some(prefix) = text.get(..cut) {
            marks.push(mark(alloc, prefix, show))?;
        }
    }
    Ok(marks)
}

fn mark(alloc: Global, prefix: &[u8], show: Show) -> u8 {
    match parse(alloc, prefix) {
        Ok(_) => b'+',
        Err(refusal) => match refusal.fault() {
            Some(fault) => fault_mark(prefix.len(), fault, show),
            None => b'!',
        },
    }
}

fn fault_mark(len: usize, fault: NetlistFault, show: Show) -> u8 {
    match show {
        Show::At => distance_mark(len.saturating_sub(fault.at())),
        Show::Why => letter(fault),
    }
}

fn distance_mark(distance: usize) -> u8 {
    match distance {
        0 => b'.',
        1..=9 => b'0' + distance as u8,
        10..=35 => b'a' + (distance - 10) as u8,
        _ => b'?',
    }
}

fn letter(fault: NetlistFault) -> u8 {
    match fault {
        NetlistFault::Lex(LexErr::BadByte { .. }) => b'b',
        NetlistFault::Lex(LexErr::OpenComment { .. }) => b'c',
        NetlistFault::Lex(LexErr::OpenText { .. }) => b't',
        NetlistFault::Lex(LexErr::Directive { .. }) => b'd',
        NetlistFault::Unexpected { .. } => b'u',
        NetlistFault::OutOfProfile { .. } => b'o',
    }
}
