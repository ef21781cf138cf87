//! Texts and files that are read, with what they come to: netlists, their stubs and the designs that they stand for,
//! recordings, and files on a shelf. The folder of a file of cases says which.
#![tactic(auto)]

mod elab;
mod netlist;
mod shelf;
mod stub;
mod vcd;

use std::{env, fs, io};
use test_cases::Report;

fn main(rt: HostRuntime) -> io::Result<()> {
    for name in env::args(&rt)?.skip(1) {
        let text = fs::read(&rt, name.as_str())?;
        let mut report = Report::new(rt.alloc(), name.as_str())?;
        run_file(&rt, &mut report, name.as_str(), text.as_slice())?;
        rt.print(report)?;
    }
    Ok(())
}

fn run_file(rt: &HostRuntime, report: &mut Report, name: &str, text: &[u8]) -> io::Result<()> {
    match name.split_once('/') {
        Some(("netlist", name)) => netlist::run_file(rt.alloc(), report, name, text)?,
        Some(("stub", _)) => stub::run_file(rt.alloc(), report, text)?,
        Some(("elab", name)) => elab::run_file(rt.alloc(), report, name, text)?,
        Some(("vcd", name)) => vcd::run_file(rt, report, name, text)?,
        _ => shelf::run_file(rt.alloc(), report, text)?,
    }
    Ok(())
}
