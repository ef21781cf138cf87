//! A job, run on files in memory after a given number of requests for memory.

use crate::program::Program;
use crate::words::put_words;
use base_lists::Memory;
use base_shelf::{PlainShelf, PlainSink};
use std::alloc::Global;
use std::{fs, io};

/// The files that a repair writes, in their order.
const OUTPUTS: [&str; 3] = ["o.vcd", "o.v", "o.xc"];

/// The line of want of memory.
const LINE: &[u8] = b"refused: memory\n";

/// The words of a repair, its netlist and its recording.
#[derive(Clone, Copy)]
struct Job<'a> {
    words: &'a str,
    netlist: &'a [u8],
    record: &'a [u8],
}

/// What a run left; without a status memory was wanting before it began.
#[derive(Drop)]
struct Left {
    status: Option<u8>,
    shelf: PlainShelf,
    sink: PlainSink,
}

/// Runs the job of a name: `two` is that of `two.words`, `two.v` and `two.vcd`.
///
/// It is run before so many requests for memory, and again after them. Where one request fails in the second run, that
/// must end with status 20, and leave beginnings of what the first left: so where always the request of one number
/// fails, and the number of those between grows by one from run to run, each request of the second run fails once.
pub fn run_job<P: Program>(rt: &HostRuntime, name: &str, requests: u32) -> io::Result<()> {
    let words = fs::read_to_string(rt, format!(in rt.alloc(); "{name}.words")?.as_str())?;
    run_words::<P>(rt, name, requests, words.trim())
}

fn run_words<P: Program>(
    rt: &HostRuntime,
    name: &str,
    requests: u32,
    words: &str,
) -> io::Result<()> {
    let netlist = bytes_of(rt, name, "v")?;
    run_netlist::<P>(rt, name, requests, words, netlist.as_slice())
}

fn run_netlist<P: Program>(
    rt: &HostRuntime,
    name: &str,
    requests: u32,
    words: &str,
    netlist: &[u8],
) -> io::Result<()> {
    let record = bytes_of(rt, name, "vcd")?;
    let job = Job {
        words,
        netlist,
        record: record.as_slice(),
    };
    let how = run_twice::<P>(rt.alloc(), job, requests);
    println!(rt; "{name} {how}")
}

/// The bytes of a file of a job.
fn bytes_of(rt: &HostRuntime, name: &str, end: &str) -> io::Result<Vec<u8>> {
    let name = format!(in rt.alloc(); "{name}.{end}")?;
    fs::read(rt, name.as_str())
}

/// Runs a job before requests for memory and after them, and says how the second run ended.
fn run_twice<P: Program>(alloc: Global, job: Job<'_>, requests: u32) -> &'static str {
    let mut whole = Left::new(alloc);
    let _ = whole.run::<P>(alloc, job);
    request(alloc, requests);
    let mut run = Left::new(alloc);
    let _ = run.run::<P>(alloc, job);
    compared(&whole, &run)
}

/// Makes so many requests for memory.
fn request(alloc: Global, requests: u32) {
    for _ in 0..requests {
        let _ = Vec::from_slice(alloc, b"x");
    }
}

impl Left {
    fn new(alloc: Global) -> Left {
        Left {
            status: None,
            shelf: PlainShelf::new(alloc),
            sink: PlainSink::new(alloc),
        }
    }

    /// Runs a job; an error is want of memory before the run begins.
    fn run<P: Program>(&mut self, alloc: Global, job: Job<'_>) -> Result<(), Memory> {
        let mut words = Vec::new(alloc);
        put_words(alloc, &mut words, job.words)?;
        self.run_on::<P>(alloc, job, words.as_slice())
    }

    fn run_on<P: Program>(
        &mut self,
        alloc: Global,
        job: Job<'_>,
        words: &[String],
    ) -> Result<(), Memory> {
        self.shelf.put("m.v", job.netlist)?;
        self.shelf.put("r.vcd", job.record)?;
        self.status = Some(P::run(alloc, words, &mut self.shelf, &mut self.sink));
        Ok(())
    }

    /// The bytes of a file; one that isn't there is empty.
    fn held(&self, name: &str) -> &[u8] {
        self.shelf.get(name).unwrap_or(b"")
    }
}

/// What a run of a job left beside a whole one, in words: its status, and whether it left what it may.
fn compared(whole: &Left, run: &Left) -> &'static str {
    match (whole.status, run.status) {
        (None, _) => "no whole run",
        (Some(_), None) => "not begun",
        (Some(0), Some(0)) if is_all(whole, run) => "status 0",
        (Some(0), Some(20)) if is_part(whole, run) => "status 20",
        (Some(0), Some(0 | 20)) => "another text",
        (Some(0), Some(_)) => "another status",
        _ => "no whole run",
    }
}

/// The run left the same texts.
fn is_all(whole: &Left, run: &Left) -> bool {
    for name in OUTPUTS {
        if run.held(name) != whole.held(name) {
            return false;
        }
    }
    run.sink.bytes() == whole.sink.bytes()
}

fn is_part(whole: &Left, run: &Left) -> bool {
    is_files_part(whole, run) && is_printed_part(whole, run)
}

/// Each file is a beginning of its text; those after one that isn't whole are empty.
fn is_files_part(whole: &Left, run: &Left) -> bool {
    let mut is_short = false;
    for name in OUTPUTS {
        let got = run.held(name);
        let text = whole.held(name);
        if !text.starts_with(got) || (is_short && !got.is_empty()) {
            return false;
        }
        is_short = is_short || got.len() < text.len();
    }
    true
}

/// A beginning of the report was printed, and then, at most, the line of want of memory.
fn is_printed_part(whole: &Left, run: &Left) -> bool {
    let printed = run.sink.bytes();
    let report = printed.strip_suffix(LINE).unwrap_or(printed);
    whole.sink.bytes().starts_with(report)
}
