//! A file being read in memory.

ghost use Rattle.std.specs.Prelude.{◌≡◌, ◌++◌, length, take, drop, min};

use std::marker::Model;

/// The bytes of a file, of which the first are read. Contracts see those that aren't.
#[derive(Drop)]
pub struct Reader {
    bytes: Vec<u8>,
    done: usize,
}

impl Model for Reader {
    ghost use Rattle.std.specs.Prelude.{List, ℕ, drop, length, ◌≤◌};

    ghost Value = { List ℕ };

    ghost view = { λ r. drop r.done r.bytes.items };

    ghost invariant = { λ r. r.done ≤ length r.bytes.items };
}

impl Reader {
    /// A file of which nothing is read.
    pub fn new(bytes: Vec<u8>) -> Reader
        ensures { result ≡ bytes.items }
    {
        Reader { bytes, done: 0 }
    }

    /// Reads the next bytes, at most a piece, to the front of the buffer, and says how many.
    pub fn read(&mut self, piece: usize, buffer: &mut [u8]) -> usize
        ensures count { result ≡ min piece (min (length buffer.old) (length self.old)) }
        ensures filled { buffer.new ≡ take result self.old ++ drop result buffer.old }
        ensures rest { self.new ≡ drop result self.old }
    {
        let unread = &self.bytes[self.done..];
        let count = piece.min(buffer.len().min(unread.len()));
        buffer[..count].copy_from_slice(&unread[..count]);
        self.done += count;
        count
    }
}
