//! A run: the files and the sink that it meets, and what it leaves.
//!
//! `put NAME TEXT` is a file without a newline at its end, `< NAME` one of the lines beneath, and `grow NAME 1000 TEXT`
//! puts a text so many times after a file. `fail shelf 7` and `fail sink 1` let a call fail, and `pieces 5` is the most
//! bytes that a call moves; without it they are 4,096.

use crate::given::{Case, text_of};
use crate::program::Program;
use crate::words::put_words;
use base_lists::Memory;
use base_shelf::{MemShelf, MemSink};
use std::alloc::{AllocError, Global};
use test_cases::{Part, PartKind, Parts};

/// A run: the files before it and after it, what it printed, and its status.
#[derive(Drop)]
pub struct Run {
    before: MemShelf,
    after: MemShelf,
    sink: MemSink,
    status: u8,
}

fn number_of(digits: &str) -> u64 {
    digits.parse::<u64>().unwrap_or(0)
}

fn of_memory(answer: Result<(), Memory>) -> Result<(), AllocError> {
    match answer {
        Ok(()) => Ok(()),
        Err(_) => Err(AllocError),
    }
}

impl Run {
    /// No file, and no call fails.
    pub fn new(case: Case<'_>) -> Run {
        let piece = number_of(case.line("pieces ").unwrap_or("4096"));
        let piece = (piece as usize).max(1);
        Run {
            before: MemShelf::new(case.alloc, piece),
            after: MemShelf::new(case.alloc, piece),
            sink: MemSink::new(case.alloc, piece),
            status: 0,
        }
    }

    /// Begins anew, with the files of a case.
    pub fn begin(&mut self, case: Case<'_>) -> Result<(), AllocError> {
        *self = Run::new(case);
        put_case(case, &mut self.before)?;
        put_case(case, &mut self.after)
    }

    /// Adds or replaces a file.
    pub fn put(&mut self, name: &str, bytes: &[u8]) -> Result<(), AllocError> {
        put_file(&mut self.before, name, bytes)?;
        put_file(&mut self.after, name, bytes)
    }

    /// Lets a call of the shelf fail, counted from 1; with 0 none does.
    pub fn fail_at(&mut self, call: u64) -> Result<(), AllocError> {
        of_memory(self.after.fail_at(call))
    }

    /// Lets the calls fail that a case names.
    pub fn set_faults(&mut self, case: Case<'_>) -> Result<(), AllocError> {
        self.set_faults_of(case.common())?;
        self.set_faults_of(case.own())
    }

    /// Runs the words of a line.
    pub fn run_line<P: Program>(&mut self, alloc: Global, line: &str) -> Result<(), AllocError> {
        let mut words = Vec::new(alloc);
        put_words(alloc, &mut words, line)?;
        self.run::<P>(alloc, words.as_slice());
        Ok(())
    }

    /// Runs these words.
    pub fn run<P: Program>(&mut self, alloc: Global, words: &[String]) {
        self.status = P::run(alloc, words, &mut self.after, &mut self.sink);
    }

    /// Its status; before it was run, 0.
    pub fn status(&self) -> u8 {
        self.status
    }

    /// The bytes of a file before it.
    pub fn met(&self, name: &str) -> Option<&[u8]> {
        self.before.get(name)
    }

    /// The bytes of a file after it.
    pub fn left(&self, name: &str) -> Option<&[u8]> {
        self.after.get(name)
    }

    /// What was printed.
    pub fn printed(&self) -> &[u8] {
        self.sink.bytes()
    }

    fn set_faults_of(&mut self, parts: Parts<'_>) -> Result<(), AllocError> {
        for part in parts {
            if part.kind == PartKind::Words {
                self.set_fault(text_of(part.head))?;
            }
        }
        Ok(())
    }

    fn set_fault(&mut self, line: &str) -> Result<(), AllocError> {
        if let Some(call) = line.strip_prefix("fail shelf ") {
            return self.fail_at(number_of(call));
        }
        match line.strip_prefix("fail sink ") {
            Some(call) => of_memory(self.sink.fail_at(number_of(call))),
            None => Ok(()),
        }
    }
}

fn put_file(shelf: &mut MemShelf, name: &str, bytes: &[u8]) -> Result<(), AllocError> {
    of_memory(shelf.put(name, bytes))
}

fn put_case(case: Case<'_>, shelf: &mut MemShelf) -> Result<(), AllocError> {
    put_parts(case.alloc, shelf, case.common())?;
    put_parts(case.alloc, shelf, case.own())
}

fn put_parts(alloc: Global, shelf: &mut MemShelf, parts: Parts<'_>) -> Result<(), AllocError> {
    for part in parts {
        put_part(alloc, shelf, part)?;
    }
    Ok(())
}

fn put_part(alloc: Global, shelf: &mut MemShelf, part: Part<'_>) -> Result<(), AllocError> {
    match part.kind {
        PartKind::Want => Ok(()),
        PartKind::File => put_content(alloc, shelf, part),
        PartKind::Words => put_line(alloc, shelf, text_of(part.head)),
    }
}

fn put_content(alloc: Global, shelf: &mut MemShelf, part: Part<'_>) -> Result<(), AllocError> {
    let content = part.content(alloc)?;
    put_file(shelf, text_of(part.head), content.as_slice())
}

fn put_line(alloc: Global, shelf: &mut MemShelf, line: &str) -> Result<(), AllocError> {
    if let Some(growth) = line.strip_prefix("grow ") {
        return grow(alloc, shelf, growth);
    }
    let Some(file) = line.strip_prefix("put ") else {
        return Ok(());
    };
    let (name, text) = file.split_once(' ').unwrap_or((file, ""));
    put_file(shelf, name, text.as_bytes())
}

/// Puts a text so many times after a file.
fn grow(alloc: Global, shelf: &mut MemShelf, growth: &str) -> Result<(), AllocError> {
    let (name, growth) = growth.split_once(' ').unwrap_or((growth, ""));
    let mut bytes = Vec::new(alloc);
    put_grown(&mut bytes, shelf.get(name).unwrap_or(b""), growth)?;
    put_file(shelf, name, bytes.as_slice())
}

/// Puts these bytes, and a text so many times after them.
fn put_grown(bytes: &mut Vec<u8>, held: &[u8], growth: &str) -> Result<(), AllocError> {
    let (count, text) = growth.split_once(' ').unwrap_or((growth, ""));
    bytes.extend_from_slice(held)?;
    for _ in 0..number_of(count) {
        bytes.extend_from_slice(text.as_bytes())?;
    }
    Ok(())
}
