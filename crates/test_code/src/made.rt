//! Made jobs: the netlist and the recording that a number and a number of gates stand for, and beneath them the lines
//! that must come.
//!
//! A case is a section. `make NUMBER GATES` says what is made. The recording is that of the made netlist's design, or
//! of the design of `< netlist`, whose top is `made` too.
//!
//! ```text
//! = no gate
//! make 7 0
//! > netlist 3
//! primitive dff(q, d, ck);
//!   output q; reg q; input d, ck;
//!   table
//! ```
//!
//! What must come: `> netlist` and `> recording`, whole, or with a number the first so many lines.

mod case;
mod task;

use crate::made::case::run_case;
use base_lists::Memory;
use std::alloc::Global;
use test_cases::{Report, section_cases};

/// Runs the cases of a file.
pub fn run_file(alloc: Global, report: &mut Report, text: &[u8]) -> Result<(), Memory> {
    for section in section_cases(text) {
        run_case(alloc, report, section)?;
    }
    Ok(())
}
