//! A record of calls, which takes no memory and which only clauses read.

ghost use Rattle.std.specs.Prelude.{◌≡◌, ℕ, List, []};
ghost use Rattle.std.specs.Borrow.{ftrue};
ghost use Rattle.base_trace.specs.Record.{traced_anew, traced_bytes, traced_more};

use std::marker::{Model, PhantomData};

/// Names with bytes, the newest first: an entry has all the bytes of its name so far.
///
/// No memory holds them. Whoever calls `set` and `add` says by it what was given or taken.
#[derive(Drop)]
pub struct Record {
    marker: PhantomData<u8>,
    pub ghost entries: { List (List ℕ × List ℕ) },
}

impl Model for Record {
    ghost also_owns = { λ _. ftrue };
}

impl Record {
    /// Nothing noted.
    pub fn new() -> Record
        ensures { result.entries ≡ [] }
    {
        Record {
            marker: PhantomData,
        }
    }

    /// Notes that the name has these bytes, and no others.
    pub fn set(&mut self, _name: &[u8], _bytes: &[u8])
        ensures { self.new.entries ≡ traced_anew _name.now _bytes.now self.old.entries }
    {}

    /// Notes that the name has these bytes after those that it had.
    pub fn add(&mut self, _name: &[u8], _bytes: &[u8])
        ensures { self.new.entries ≡ traced_more _name.now _bytes.now self.old.entries }
    {}

    /// Notes that the name has the bytes that another record has of it, and no others.
    pub fn copy(&mut self, _name: &[u8], _from: &Record)
        ensures { self.new.entries
            ≡ traced_anew _name.now (traced_bytes _from.now.entries _name.now) self.old.entries }
    {}
}
