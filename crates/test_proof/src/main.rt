//! Logs that are checked, formulas that are solved, and families of small formulas against all their assignments.
//!
//! A case is a line: a call, ` -> `, and what must come. Its numbers are those of DIMACS, where a clause ends with 0,
//! over twelve variables; a name that ends in `.cnf` or `.log` stands for the numbers of that file, and `none` for no
//! number.
//!
//! ```text
//! check 1 2 0 -1 0 -2 0 | 0 -> refuted
//! flip 6 pigeons_4_3.cnf | pigeons_4_3.log -> line 3
//! fresh 1 1 2 3 0 1 2 -3 0 | 1 2 0 -> fresh
//! solve 1000 pigeons_4_3.cnf -> refuted
//! log 1 1 0 -1 0 -> clauses 1 literals 0
//! every 5 2 1000 -> 412 models, 875 refuted, 0 at the limit
//! ```
//!
//! A file in the folder `texts` has formulas and logs as DIMACS texts; `texts.rt` says how.
#![tactic(auto)]

mod answer;
mod case;
mod dimacs;
mod families;
mod logs;
mod searches;
mod texts;

use case::run_case;
use std::alloc::AllocError;
use std::{env, fs, io};
use test_cases::{Lines, Report};

fn main(rt: HostRuntime) -> io::Result<()> {
    for name in env::args(&rt)?.skip(1) {
        let text = fs::read(&rt, name.as_str())?;
        let mut report = Report::new(rt.alloc(), name.as_str())?;
        match name.as_str().strip_prefix("texts/") {
            Some(name) => texts::run_file(rt.alloc(), &mut report, name, text.as_slice()).map_err(
                |_| AllocError,
            )?,
            None => run_lines(&rt, &mut report, text.as_slice())?,
        }
        rt.print(report)?;
    }
    Ok(())
}

fn run_lines(rt: &HostRuntime, report: &mut Report, text: &[u8]) -> io::Result<()> {
    for line in Lines::new(text) {
        if !line.is_idle() {
            run_case(rt, report, line)?;
        }
    }
    Ok(())
}
