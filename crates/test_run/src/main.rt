//! Runs of the whole programs on files in memory, with what each must leave, and those of jobs after a given number of
//! requests for memory. Cases in the folder `xrtrim` are runs of that program, all else runs of `xrepair`.
#![tactic(auto)]

use base_shelf::{Shelf, Sink};
use std::alloc::Global;
use std::{env, io};
use test_runs::{Program, requests_in, run_file, run_named};

/// The program of ten commands.
struct Xrepair;

impl Program for Xrepair {
    fn run<S: Shelf, O: Sink>(alloc: Global, words: &[String], shelf: &mut S, out: &mut O) -> u8 {
        cmd_program::run(alloc, words, shelf, out)
    }
}

/// The program that trims libraries.
struct Xrtrim;

impl Program for Xrtrim {
    fn run<S: Shelf, O: Sink>(alloc: Global, words: &[String], shelf: &mut S, out: &mut O) -> u8 {
        cmd_trim::run(alloc, words, shelf, out)
    }
}

fn main(rt: HostRuntime) -> io::Result<()> {
    let requests = requests_in(&rt)?;
    for name in env::args(&rt)?.skip(1) {
        let name = name.as_str();
        if name.starts_with("xrtrim/") {
            run_file::<Xrtrim>(&rt, name)?;
        } else {
            run_named::<Xrepair>(&rt, name, requests)?;
        }
    }
    Ok(())
}
