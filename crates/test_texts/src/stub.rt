//! Texts with stubs.

mod case;

use crate::stub::case::run_case;
use std::alloc::{AllocError, Global};
use test_cases::{Report, section_cases};

/// Runs the cases of a file.
pub fn run_file(alloc: Global, report: &mut Report, text: &[u8]) -> Result<(), AllocError> {
    for section in section_cases(text) {
        run_case(alloc, report, section)?;
    }
    Ok(())
}
