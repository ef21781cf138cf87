//! Jobs, and what is found of their places: a netlist and a recording of it, and beneath them what must come.
//!
//! A case is a section. What stands before the first title holds for all: `< netlist` texts are joined. `< r.vcd` is a
//! whole recording in the scope `dut`, `< recording` the same in short, `#10 ck=1 d=x` for each moment, the first with
//! all nets. The module is `top`.
//! `rounds 1` and `conflicts 1` stand for 4 and 1000, `start recorded` for a cold start; `made SEED GATES` is a job
//! that is drawn, and `chain gates 5` or `chain registers 5` a netlist.
//!
//! ```text
//! = xor_of_itself
//! < netlist
//! module top(a, y); input a; output y; xor (y, a, a); endmodule
//! < recording
//! #0 a=x
//! > facts
//! lines 0
//! counts known 0 repaired 4 unknown 4 undecided 0
//! class #0 round 1 a carried #0 round 0 a
//! mark #0 round 0 y certain 0
//! all 8 places agree
//! ```
//!
//! What facts say of a place, `#TIME round ROUND NET`:
//!
//! - `class PLACE`: `local 1`, `free`, `carried PLACE`, `carried PLACE inverted`, `line`.
//! - `mark PLACE`: `certain 1`, `unknown z`, `undecided x`, with the value that is shown.
//! - `line PLACE`: `enumerated 0`, `refuted 1`, `pair`, `undecided`, `none`.
//! - `sources PLACE = PLACE, PLACE`, of the cone of a place whose class is line.
//! - `boundary PLACE = PLACE, PLACE`, the places that the rules of that cone read and that aren't in it, and
//!   `certain_boundary PLACE = PLACE, PLACE`, the certain ones of them.
//! - `pair PLACE = nothing and PLACE, PLACE`: the two fillings of an unknown place.
//! - `check_pair PLACE not one`: what two empty fillings are refused with, at the first place whose class is line.
//!
//! `all N places agree`: the worlds of all fillings of at most 10 sources give each place what its mark says, and they
//! are the same where every other place is filled with 1; the fillings of an unknown place give 0 and 1; the cone of
//! each line gives the bit of the world.
//!
//! `> replay` has rows of the replay: `shown NET = 0000 1111` and `kept NET = 0000 1111`, a value for each round of
//! each moment, and `compare agrees`, or the line of the first fault of the recording. The job is replayed under
//! `force #TIME round ROUND NET VALUE` and a `release #TIME round ROUND NET` beneath it, where they stand.
//!
//! In `choices.txt` a line has a table, the value of the arguments' bits from 0 up, the bit that is forced, and behind
//! ` = ` its minimal choices, the first argument on the left and `-` where it isn't chosen.
#![tactic(auto)]

mod case;
mod chain;
mod choices;
mod drawn;
mod facts;
mod fillings;
mod forced;
mod job;
mod pairs;
mod places;
mod recording;
mod repaired;
mod replayed;
mod words;
mod worlds;

use base_lists::Memory;
use case::run_case;
use choices::run_choices;
use std::alloc::{AllocError, Global};
use std::{env, fs, io};
use test_cases::{Report, section_cases, shared};

fn main(rt: HostRuntime) -> io::Result<()> {
    for name in env::args(&rt)?.skip(1) {
        run_file(&rt, name.as_str())?;
    }
    Ok(())
}

/// Runs the cases of a file, and prints how many came as wanted.
fn run_file(rt: &HostRuntime, name: &str) -> io::Result<()> {
    let text = fs::read(rt, name)?;
    print_cases(rt, name, text.as_slice())
}

fn print_cases(rt: &HostRuntime, name: &str, text: &[u8]) -> io::Result<()> {
    let report = report_of(rt.alloc(), name, text)?;
    rt.print(report)
}

fn report_of(alloc: Global, name: &str, text: &[u8]) -> Result<Report, AllocError> {
    let mut report = Report::new(alloc, name)?;
    match run_cases(alloc, &mut report, name, text) {
        Ok(()) => Ok(report),
        Err(Memory) => Err(AllocError),
    }
}

fn run_cases(alloc: Global, report: &mut Report, name: &str, text: &[u8]) -> Result<(), Memory> {
    if name.ends_with("choices.txt") {
        run_choices(alloc, report, text)
    } else {
        run_sections(alloc, report, text)
    }
}

fn run_sections(alloc: Global, report: &mut Report, text: &[u8]) -> Result<(), Memory> {
    let common = shared(text);
    for section in section_cases(text) {
        run_case(alloc, report, common, section)?;
    }
    Ok(())
}
