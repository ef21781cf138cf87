//! Netlist texts with the byte and the words of their refusal, their tokens or their tree.

mod answer;
mod prefixes;
mod printed;

use crate::netlist::answer::answer_of;
use crate::netlist::prefixes::run_prefixes;
use std::alloc::{AllocError, Global};
use test_cases::{Report, text_cases};

/// Runs the cases of the file of this name in the folder.
pub fn run_file(
    alloc: Global,
    report: &mut Report,
    name: &str,
    text: &[u8],
) -> Result<(), AllocError> {
    if name == "prefixes.txt" {
        return run_prefixes(alloc, report, text);
    }
    for case in text_cases(text) {
        let case = case.read(alloc)?;
        let got = answer_of(alloc, name, case.input.as_slice())?;
        let got = got.as_str().trim_end();
        report.compare(case.line, case.want.as_slice(), got.as_bytes())?;
        report.end_case();
    }
    Ok(())
}
