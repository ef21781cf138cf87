//! A case: a line with the names of modules and those of supplies, a text, and what it comes to: `> stubbed` with the
//! text, or `> refused` with a word and the byte.

use netlist_stub::{StubErr, StubFault, stub};
use std::alloc::{AllocError, Global};
use test_cases::{Part, PartKind, Report, Section};

/// Runs a case, and compares what it comes to.
pub fn run_case(
    alloc: Global,
    report: &mut Report,
    section: Section<'_>,
) -> Result<(), AllocError> {
    let mut text = Vec::new(alloc);
    let mut names = Vec::new(alloc);
    let mut supplies = Vec::new(alloc);
    for part in section.parts() {
        match part.kind {
            PartKind::Words => {
                names = names_in(alloc, part.head, 0)?;
                supplies = names_in(alloc, part.head, 1)?;
            }
            PartKind::File => text = part.content(alloc)?,
            PartKind::Want => {
                let got = answer_to(
                    alloc,
                    text.as_slice(),
                    names.as_slice(),
                    supplies.as_slice(),
                )?;
                compare_want(alloc, report, part, got.as_slice())?;
            }
        }
    }
    report.end_case();
    Ok(())
}

fn compare_want(
    alloc: Global,
    report: &mut Report,
    part: Part<'_>,
    got: &[u8],
) -> Result<(), AllocError> {
    let content = part.content(alloc)?;
    report.compare(part.line.saturating_add(1), content.as_slice(), got)
}

/// The names of the list of this number in a line.
fn names_in<'a>(alloc: Global, line: &'a [u8], number: usize) -> Result<Vec<&'a [u8]>, AllocError> {
    let mut names = Vec::new(alloc);
    for (at, list) in line.split(|byte| *byte == b' ').enumerate() {
        if at == number {
            for name in list.split(|byte| *byte == b',') {
                names.push(name)?;
            }
        }
    }
    Ok(names)
}

fn answer_to(
    alloc: Global,
    text: &[u8],
    names: &[&[u8]],
    supplies: &[&[u8]],
) -> Result<Vec<u8>, AllocError> {
    match stub(alloc, text, names, supplies) {
        Ok(out) => Ok(out),
        Err(StubErr::Refused(fault)) => words_of(alloc, &fault),
        Err(StubErr::Memory) => Err(AllocError),
    }
}

fn words_of(alloc: Global, fault: &StubFault) -> Result<Vec<u8>, AllocError> {
    let words = match fault {
        StubFault::Text(_) => format!(in alloc; "text\n")?,
        StubFault::Unexpected { at } => format!(in alloc; "unexpected {at}\n")?,
        StubFault::Range { at } => format!(in alloc; "range {at}\n")?,
        StubFault::Supply { at } => format!(in alloc; "inout {at}\n")?,
        StubFault::Undirected { at } => format!(in alloc; "undirected {at}\n")?,
    };
    Vec::from_slice(alloc, words.as_bytes())
}
