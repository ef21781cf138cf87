//! Files of cases and jobs, by name.

use crate::files::run_file;
use crate::job::run_job;
use crate::program::Program;
use std::io;

/// How many requests for memory a job makes before its second run, as standard input says.
pub fn requests_in(rt: &HostRuntime) -> io::Result<u32> {
    let input = io::read_to_string(rt.alloc(), rt.stdin())?;
    Ok(input.trim().parse::<u32>().unwrap_or(0))
}

/// Runs what a word names: the cases of a file where it ends with `.case`, and else a job, as `run_job` says.
pub fn run_named<P: Program>(rt: &HostRuntime, name: &str, requests: u32) -> io::Result<()> {
    if name.ends_with(".case") {
        return run_file::<P>(rt, name);
    }
    run_job::<P>(rt, name, requests)
}
