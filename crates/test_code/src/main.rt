//! Code that forces nets, read and written: a netlist with moments, and beneath it what must come.
//!
//! A case is a section. What stands before the first title holds for all that have nothing else: `< netlist`, whose top
//! is
//! `top` and whose inputs are x, and `times 0 10`, the moments; `rounds 2` and `scope tb.u0` stand for 4 and `tb.dut`.
//!
//! ```text
//! = the last statement for a net in a step counts
//! times 0 10
//! < netlist
//! module top(a, y); input a; output y; buf (y, a); endmodule
//! < code
//! module xrepair_code;
//!   initial begin
//!     #10;
//!     force tb.dut.y = 1'b0;
//!     force tb.dut.y = 1'b1;
//!   end
//! endmodule
//! > events
//! 4 y 1
//! ```
//!
//! What must come:
//!
//! - `> events`: the forces that the code says, `STEP NET VALUE` or `STEP NET release`, or `AT WORDS`, its refusal.
//! - `> code`: the text that is written for `< events`, as above. It then is the code, so that `> events` reads it again.
//! - `> texts`: texts of code with `ok`, or a caret under the byte that is refused and the words, as `test_cases` has them.
//! - `> cuts`: what the code comes to where it is cut after so many bytes, `FIRST-LAST: AT WORDS` or `FIRST-LAST: ok`.
//!
//! A file in the folder `made` has made jobs; `made.rt` says how.
#![tactic(auto)]

mod case;
mod cuts;
mod events;
mod job;
mod made;
mod moments;
mod scoped;
mod texts;
mod words;

use base_lists::Memory;
use case::run_case;
use std::alloc::{AllocError, Global};
use std::{env, fs, io};
use test_cases::{Report, section_cases, shared};

fn main(rt: HostRuntime) -> io::Result<()> {
    for name in env::args(&rt)?.skip(1) {
        let text = fs::read(&rt, name.as_str())?;
        let mut report = Report::new(rt.alloc(), name.as_str())?;
        run_file(rt.alloc(), &mut report, name.as_str(), text.as_slice()).map_err(|_| AllocError)?;
        rt.print(report)?;
    }
    Ok(())
}

fn run_file(alloc: Global, report: &mut Report, name: &str, text: &[u8]) -> Result<(), Memory> {
    if name.starts_with("made/") {
        return made::run_file(alloc, report, text);
    }
    run_sections(alloc, report, text)
}

fn run_sections(alloc: Global, report: &mut Report, text: &[u8]) -> Result<(), Memory> {
    let common = shared(text);
    for section in section_cases(text) {
        run_case(alloc, report, common, section)?;
    }
    Ok(())
}
