//! Netlists with the refusal of their elaboration, or with the design that they stand for.

mod answer;
mod printed;

use crate::elab::answer::{design_of, verdict_of};
use std::alloc::{AllocError, Global};
use test_cases::{Part, PartKind, Report, Section, section_cases, text_cases};

/// Runs the cases of the file of this name in the folder.
pub fn run_file(
    alloc: Global,
    report: &mut Report,
    name: &str,
    text: &[u8],
) -> Result<(), AllocError> {
    if name == "designs.txt" {
        for section in section_cases(text) {
            run_section(alloc, report, section)?;
        }
        return Ok(());
    }
    run_texts(alloc, report, text)
}

fn run_texts(alloc: Global, report: &mut Report, text: &[u8]) -> Result<(), AllocError> {
    for case in text_cases(text) {
        let case = case.read(alloc)?;
        let got = verdict_of(alloc, case.input.as_slice())?;
        report.compare(case.line, case.want.as_slice(), got.as_str().as_bytes())?;
        report.end_case();
    }
    Ok(())
}

/// A netlist, and the design that must come.
fn run_section(alloc: Global, report: &mut Report, section: Section<'_>) -> Result<(), AllocError> {
    let mut text = Vec::new(alloc);
    for part in section.parts() {
        if part.kind == PartKind::Want {
            compare(alloc, report, part, text.as_slice())?;
        } else {
            text = part.content(alloc)?;
        }
    }
    report.end_case();
    Ok(())
}

fn compare(
    alloc: Global,
    report: &mut Report,
    part: Part<'_>,
    text: &[u8],
) -> Result<(), AllocError> {
    let want = part.content(alloc)?;
    let got = design_of(alloc, text)?;
    report.compare(
        part.line.saturating_add(1),
        want.as_slice(),
        got.as_str().as_bytes(),
    )
}
