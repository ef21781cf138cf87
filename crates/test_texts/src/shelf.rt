//! Scripts of calls on a shelf and a sink in memory, with what each call must answer.

mod answer;
mod calls;
mod delivered;
mod script;

use crate::shelf::script::run_section;
use std::alloc::{AllocError, Global};
use test_cases::{Report, section_cases};

/// Runs the cases of a file.
pub fn run_file(alloc: Global, report: &mut Report, text: &[u8]) -> Result<(), AllocError> {
    for section in section_cases(text) {
        run_section(alloc, report, section)?;
    }
    Ok(())
}
