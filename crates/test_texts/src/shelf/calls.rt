//! The calls of a script.

use crate::shelf::answer::{Answer, done, quoted};
use crate::shelf::delivered::deliver_two;
use base_shelf::{MemShelf, MemSink, Shelf, print_all, read_all, write_all};
use std::alloc::{AllocError, Global};

/// A shelf and a sink in memory.
#[derive(Drop)]
pub struct Outside {
    alloc: Global,
    shelf: MemShelf,
    sink: MemSink,
}

/// A text between quotes.
fn unquoted(text: &str) -> &str {
    let text = text.strip_prefix('"').unwrap_or(text);
    text.strip_suffix('"').unwrap_or(text)
}

/// A name and what stands after it.
fn named(words: &str) -> (&str, &str) {
    words.split_once(' ').unwrap_or((words, ""))
}

fn number_of(word: &str) -> u64 {
    word.parse::<u64>().unwrap_or(0)
}

impl Outside {
    /// No file; a call moves at most a given number of bytes, and at least one.
    pub fn new(alloc: Global, piece: u64) -> Outside {
        let piece = (piece as usize).max(1);
        Outside {
            alloc,
            shelf: MemShelf::new(alloc, piece),
            sink: MemSink::new(alloc, piece),
        }
    }

    /// What a call answers.
    pub fn call(&mut self, verb: &str, rest: &str) -> Result<Answer, AllocError> {
        match verb {
            "pieces" => Ok(Answer::Done),
            "put" | "long" | "fail" => self.set_up(verb, rest),
            "get" | "written" | "faults" | "printed" | "sink" => self.look(verb, rest),
            "read_all" | "write_all" | "print_all" => self.whole(verb, rest),
            "deliver" => deliver_two(self.alloc, &mut self.shelf, &mut self.sink, rest),
            _ => self.step(verb, rest),
        }
    }

    /// Puts a file, or sets calls to fail.
    fn set_up(&mut self, verb: &str, rest: &str) -> Result<Answer, AllocError> {
        let (name, text) = named(rest);
        match (verb, name) {
            ("put", _) => Ok(done(self.shelf.put(name, unquoted(text).as_bytes()))),
            ("long", _) => self.put_long(name, number_of(text)),
            (_, "sink") => self.fail_sink(text),
            _ => self.fail_shelf(rest),
        }
    }

    /// Puts a file of a given number of bytes `x`.
    fn put_long(&mut self, name: &str, count: u64) -> Result<Answer, AllocError> {
        let bytes = vec![in self.alloc; b'x'; count as usize]?;
        Ok(done(self.shelf.put(name, bytes.as_slice())))
    }

    fn fail_shelf(&mut self, calls: &str) -> Result<Answer, AllocError> {
        for call in calls.split(' ') {
            if self.shelf.fail_at(number_of(call)).is_err() {
                return Ok(Answer::Memory);
            }
        }
        Ok(Answer::Done)
    }

    fn fail_sink(&mut self, calls: &str) -> Result<Answer, AllocError> {
        for call in calls.split(' ') {
            if self.sink.fail_at(number_of(call)).is_err() {
                return Ok(Answer::Memory);
            }
        }
        Ok(Answer::Done)
    }

    /// What a file holds, what was written of it, what was printed, and the counts of faults.
    fn look(&self, verb: &str, rest: &str) -> Result<Answer, AllocError> {
        match verb {
            "get" => self.shown(self.shelf.get(rest)),
            "written" => self.shown(self.shelf.written(rest)),
            "printed" => quoted(self.alloc, self.sink.bytes()),
            "sink" => self.words(format!(in self.alloc; "{}", self.sink.faults())?),
            _ => self.words(format!(in self.alloc;
                "{} of reading, {} of writing",
                self.shelf.read_faults(),
                self.shelf.write_faults()
            )?),
        }
    }

    fn words(&self, words: String) -> Result<Answer, AllocError> {
        Ok(Answer::Words(words.into_bytes()))
    }

    fn shown(&self, held: Option<&[u8]>) -> Result<Answer, AllocError> {
        match held {
            Some(bytes) => quoted(self.alloc, bytes),
            None => self.words(String::from_str(self.alloc, "none")?),
        }
    }

    /// A call over a whole file or text.
    fn whole(&mut self, verb: &str, rest: &str) -> Result<Answer, AllocError> {
        let (name, text) = named(rest);
        match verb {
            "read_all" => self.read_whole(text, number_of(name)),
            "write_all" => Ok(done(write_all(&mut self.shelf, name, unquoted(text).as_bytes()))),
            _ => Ok(done(print_all(&mut self.sink, unquoted(rest).as_bytes()))),
        }
    }

    fn read_whole(&mut self, name: &str, limit: u64) -> Result<Answer, AllocError> {
        match read_all(self.alloc, &mut self.shelf, name, limit as usize) {
            Ok(text) => quoted(self.alloc, text.as_slice()),
            Err(fault) => Ok(Answer::from(fault)),
        }
    }

    /// A single call of the shelf.
    fn step(&mut self, verb: &str, rest: &str) -> Result<Answer, AllocError> {
        match verb {
            "open" => Ok(done(self.shelf.open_file(rest))),
            "create" => Ok(done(self.shelf.create_file(rest))),
            "close" => Ok(done(self.shelf.close_file())),
            "put_file" => Ok(done(self.shelf.put_file(rest))),
            "discard" => Ok(self.discard()),
            "read" => self.read(number_of(rest)),
            _ => self.words(String::from_str(self.alloc, "no such call")?),
        }
    }

    fn discard(&mut self) -> Answer {
        self.shelf.discard();
        Answer::Done
    }

    /// Reads into a given number of zero bytes: what the call answered, and the bytes, each 0 shown as a point.
    fn read(&mut self, room: u64) -> Result<Answer, AllocError> {
        let mut buffer = vec![in self.alloc; 0u8; room as usize]?;
        let answer = self.shelf.read(buffer.as_mut_slice());
        for byte in buffer.iter_mut() {
            if *byte == 0 {
                *byte = b'.';
            }
        }
        let mut words = match answer {
            Ok(count) => format!(in self.alloc; "{count} ")?,
            Err(_) => String::from_str(self.alloc, "fault ")?,
        }
        .into_bytes();
        words.extend_from_slice(buffer.as_slice())?;
        Ok(Answer::Words(words))
    }
}
