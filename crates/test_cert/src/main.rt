//! Certificates: their texts, read and written again, and certificates of small jobs, made by a repair or by hand,
//! checked.
//!
//! A case is a section. What stands before the first title holds for all: `< netlist` texts are joined, the module is
//! `top`. `< r.vcd` is a recording in the scope `dut`, `< cert` a certificate, after a line `cut` without its last
//! byte; `rounds 1` and `conflicts 1` stand for 4 and 1000.
//!
//! ```text
//! = xor_of_itself
//! < netlist
//! module top(a, y); input a; output y; xor (y, a, a); endmodule
//! < r.vcd
//! $scope module dut $end $var wire 1 a a $end $upscope $end $enddefinitions $end #0 xa
//! > own
//! xrepair certificate 1
//! rounds 4 conflicts 1000 moments 1 nets 2
//! end 0
//! > check
//! accepted known 0 repaired 4 unknown 4 undecided 0
//! accepted known 0 repaired 4 unknown 4 undecided 0
//! ```
//!
//! - `> read`: `ok` where the certificate is read, and its text is the same when it is written again; else the refusal.
//! - `> own`: the certificate that the repair of the job writes, of form 1; `> own 2` of form 2.
//! - `> check`: how many places have which end by the certificate, or the refusal. A case without `< cert` has the
//!   repair's own, of form 1 and then of form 2. Of what is accepted the text is the same when it is written again.
#![tactic(auto)]

mod case;
mod checked;
mod job;
mod refusal;
mod words;

use base_lists::Memory;
use case::run_case;
use std::alloc::{AllocError, Global};
use std::{env, fs, io};
use test_cases::{Report, section_cases, shared};

fn main(rt: HostRuntime) -> io::Result<()> {
    for name in env::args(&rt)?.skip(1) {
        run_file(&rt, name.as_str())?;
    }
    Ok(())
}

/// Runs the cases of a file, and prints how many came as wanted.
fn run_file(rt: &HostRuntime, name: &str) -> io::Result<()> {
    let text = fs::read(rt, name)?;
    print_cases(rt, name, text.as_slice())
}

fn print_cases(rt: &HostRuntime, name: &str, text: &[u8]) -> io::Result<()> {
    let report = report_of(rt.alloc(), name, text)?;
    rt.print(report)
}

fn report_of(alloc: Global, name: &str, text: &[u8]) -> Result<Report, AllocError> {
    let mut report = Report::new(alloc, name)?;
    match run_sections(alloc, &mut report, text) {
        Ok(()) => Ok(report),
        Err(Memory) => Err(AllocError),
    }
}

fn run_sections(alloc: Global, report: &mut Report, text: &[u8]) -> Result<(), Memory> {
    let common = shared(text);
    for section in section_cases(text) {
        run_case(alloc, report, common, section)?;
    }
    Ok(())
}
