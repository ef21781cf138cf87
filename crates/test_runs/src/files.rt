//! Files of cases.

use crate::case::run_case;
use crate::given::Case;
use crate::program::Program;
use std::alloc::{AllocError, Global};
use std::{fs, io};
use test_cases::{Report, section_cases, shared};

/// Runs the cases of a file, and prints how many came as wanted.
pub fn run_file<P: Program>(rt: &HostRuntime, name: &str) -> io::Result<()> {
    let text = fs::read(rt, name)?;
    print_cases::<P>(rt, name, text.as_slice())
}

fn print_cases<P: Program>(rt: &HostRuntime, name: &str, text: &[u8]) -> io::Result<()> {
    let report = report_of::<P>(rt.alloc(), name, text)?;
    rt.print(report)
}

fn report_of<P: Program>(alloc: Global, name: &str, text: &[u8]) -> Result<Report, AllocError> {
    let mut report = Report::new(alloc, name)?;
    run_cases::<P>(alloc, &mut report, text)?;
    Ok(report)
}

fn run_cases<P: Program>(
    alloc: Global,
    report: &mut Report,
    text: &[u8],
) -> Result<(), AllocError> {
    let common = shared(text);
    for section in section_cases(text) {
        run_case::<P>(report, Case::new(alloc, common, section))?;
    }
    Ok(())
}
