//! Recordings with the byte and the words of their refusal, or with what they say, as text files.

mod fault;
mod listing;
mod section;

use crate::vcd::fault::{fault_of, fault_of_changes};
use crate::vcd::section::run_section;
use std::alloc::{AllocError, Global};
use std::io;
use std::rt::Files;
use test_cases::{Report, section_cases, text_cases};

/// Runs the cases of the file of this name in the folder.
pub fn run_file<R: Files + AllocGlobal>(
    rt: &R,
    report: &mut Report,
    name: &str,
    text: &[u8],
) -> io::Result<()> {
    if name == "values.txt" || name == "recordings.txt" {
        for section in section_cases(text) {
            run_section(rt, report, section)?;
        }
        return Ok(());
    }
    run_texts(rt.alloc(), report, name, text)?;
    Ok(())
}

fn run_texts(
    alloc: Global,
    report: &mut Report,
    name: &str,
    text: &[u8],
) -> Result<(), AllocError> {
    for case in text_cases(text) {
        let case = case.read(alloc)?;
        let got = if name == "changes.txt" {
            fault_of_changes(alloc, case.input.as_slice())?
        } else {
            fault_of(alloc, case.input.as_slice())?
        };
        report.compare(case.line, case.want.as_slice(), got.as_str().as_bytes())?;
        report.end_case();
    }
    Ok(())
}
