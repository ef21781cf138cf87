//! The program `xrtrim`: real files and standard output for `ship`, which has its theorem.
#![tactic(auto)]

mod ship;

use base_files::{OutSink, Progress, refuse, words_of};
use base_run::refuse_memory;
use cmd_trim::usage;
use ship::{fetch, ship};
use std::io;
use std::io::Eprint;
use std::process::ExitCode;

/// The exit status of words that aren't in the set.
const USAGE: u8 = 2;

fn main(rt: HostRuntime) -> ExitCode {
    let mut out = OutSink::new(io::writer(&rt), Progress::new(&rt, false));
    let status = match words_of(&rt) {
        Ok(words) => run_words(&rt, words.as_slice(), &mut out),
        Err(fault) => refuse(&mut out, fault),
    };
    show_usage(&rt, status);
    ExitCode::from(status)
}

/// Reads the files that the words name, and runs the words on what was read.
fn run_words<W: io::Write + Drop>(
    rt: &HostRuntime,
    words: &[String],
    out: &mut OutSink<'_, W, HostRuntime>,
) -> u8 {
    match fetch(rt, rt.alloc(), words) {
        Ok(fetched) => ship(rt, rt.alloc(), words, &fetched, out).0,
        Err(_) => refuse_memory(out),
    }
}

/// Where the words aren't in the set, shows their usage on standard error, as far as that can be.
fn show_usage(rt: &HostRuntime, status: u8) {
    if status == USAGE {
        if let Ok(usage) = usage(rt.alloc()) {
            let _ = rt.eprint(usage);
        }
    }
}
