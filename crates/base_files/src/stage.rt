//! How far a shelf of real files has come: files are read first, and then written.

ghost use Rattle.std.specs.Prelude.{◌≡◌, ◌<◌, ◌≤◌, ◌++◌, [], length, take, drop, min, true, string_bytes, IfOk, OnErr};
ghost use Rattle.base_trace.specs.Record.{is_traced, traced_more};

use crate::noted::{Refused, write_noted};
use base_trace::Record;
use std::fs::File;

/// A file whose text is being read.
#[derive(Drop)]
pub struct Opened {
    pub name: String,
    pub done: usize,
}

impl Opened {
    /// Gives the next bytes of its text to the front of the buffer, and says how many.
    #[tactic(auto)]
    pub fn give(&mut self, text: &[u8], buffer: &mut [u8]) -> usize
        ensures name { self.new.name ≡ self.old.name }
        ensures bound { result ≤ length buffer.new }
        ensures bytes { drop self.old.done text.now ≡ take result buffer.new ++ drop self.new.done text.now }
        ensures end { result ≡ 0 → 0 < length buffer.new → drop self.old.done text.now ≡ [] }
    {
        let done = self.done.min(text.len());
        let count = give(&text[done..], buffer);
        self.done = done + count;
        count
    }
}

/// Gives the first bytes to the front of the buffer, and says how many.
#[tactic(auto)]
fn give(unread: &[u8], buffer: &mut [u8]) -> usize
    ensures count { result ≡ min (length buffer.old) (length unread.now) }
    ensures filled { buffer.new ≡ take result unread.now ++ drop result buffer.old }
{
    let count = buffer.len().min(unread.len());
    buffer[..count].copy_from_slice(&unread[..count]);
    count
}

/// What the writes of each name took since its file was made; and of each name what was put under it.
#[derive(Drop)]
pub struct Traces {
    pub took: Record,
    pub put: Record,
}

impl Traces {
    /// Nothing written, and nothing put.
    pub fn new() -> Traces
        ensures took { result.took.entries ≡ [] }
        ensures put { result.put.entries ≡ [] }
    {
        Traces {
            took: Record::new(),
            put: Record::new(),
        }
    }
}

/// A file that was made and is being written.
#[derive(Drop)]
pub struct Created {
    pub name: String,
    pub file: File,
    pub took: Record,
    pub put: Record,
    ghost begun: { is_traced took.entries (string_bytes name) ≡ true },
}

impl Created {
    /// Writes once.
    pub fn write(&mut self, bytes: &[u8]) -> Result<usize, Refused>
        ensures name { self.new.name ≡ self.old.name }
        ensures put { self.new.put.entries ≡ self.old.put.entries }
        ensures bound { IfOk result (λ n. n ≤ length bytes.now) }
        ensures some { IfOk result (λ n. 0 < length bytes.now → 0 < n) }
        ensures noted { IfOk result (λ n. self.new.took.entries
            ≡ traced_more (string_bytes self.old.name) (take n bytes.now) self.old.took.entries) }
        ensures err { OnErr result (self.new.took.entries ≡ self.old.took.entries) }
    {
        write_noted(&mut self.file, bytes, self.name.as_bytes(), &mut self.took)
    }
}

/// No file was made yet, and one may be in hand; or some were, and none is in hand, or the last one.
#[derive(Drop)]
pub enum Stage {
    Resting,
    Reading(Opened),
    Wrote(Traces),
    Writing(Created),
}
