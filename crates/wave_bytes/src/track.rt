//! The bytes of one position, step after step.

ghost use Rattle.std.specs.Prelude.{◌≡◌, ℕ, ◌+◌, ◌-◌, ◌<◌, ◌≤◌, ◌^◌, ◌++◌, ◌∷◌, [], OnOk, OnErr, length};
ghost use Rattle.wave_bytes.specs.Track.{AreAscending, AreBefore, byte_at, byte_from, is_again, nth_entry};
ghost use Rattle.wave_bytes.specs.Track.{with_byte_at};

use crate::byte::repeated_byte;
use base_lists::Memory;
use std::alloc::Global;
use std::marker::Model;

/// A byte that is written again as it is.
const STILL_BYTE: u8 = 64;

/// The byte that is written anew at a step.
#[derive(Clone, Copy, Debug)]
pub struct Entry {
    pub step: u32,
    pub byte: u8,
}

/// The entries of a position, in the order of the steps. Contracts see their list.
#[derive(Debug, Drop)]
pub struct Track {
    entries: Vec<Entry>,
    /// The last of them, where there is one: most look-ups want it, and find it without a search.
    last: Entry,
}

impl Model for Track {
    ghost use Rattle.std.specs.Prelude.{List};
    ghost use Rattle.wave_bytes.specs.Track.{AreAscending, IsLast};
    ghost use Rattle.wave_bytes.specs.declared.track.Entry as entry;

    ghost Value = { List entry.Entry };

    ghost view = { λ h. h.entries.items };

    ghost invariant = { λ h. record {
      ascending : AreAscending h.entries.items;
      last : IsLast h.entries.items h.last;
    } };
}

impl Track {
    /// One without entries.
    pub fn new(alloc: Global) -> Track
        ensures { result ≡ [] }
    {
        Track {
            entries: Vec::new(alloc),
            last: Entry {
                step: 0,
                byte: STILL_BYTE,
            },
        }
    }

    /// Writes the byte of a step behind those of all entries, given whether it is the one a step before, written again.
    /// Takes eight bytes where it isn't.
    pub fn put(&mut self, step: usize, byte: u8, again: bool) -> Result<(), Memory>
        requires step { step < 2 ^ 32 }
        requires again { again ≡ is_again self.old step byte }
        requires before { AreBefore self.old step }
        ensures ok { OnOk result (self.new ≡ with_byte_at self.old step byte) }
        ensures err { OnErr result (self.new ≡ self.old) }
    {
        if again {
            return Ok(());
        }
        let entry = Entry {
            step: step as u32,
            byte,
        };
        self.entries.push(entry)?;
        self.last = entry;
        Ok(())
    }

    /// Whether a byte at a step is the one a step before, written again.
    pub fn is_again(&self, step: usize, byte: u8) -> bool
        ensures { result ≡ is_again self.now step byte }
    {
        step > 0 && byte == repeated_byte(self.byte_at(step - 1))
    }

    /// The byte at a step: quick for one from the last entry's on.
    pub fn byte_at(&self, step: usize) -> u8
        ensures { result ≡ byte_at self.now step }
    {
        let entries = self.entries.as_slice();
        if !entries.is_empty() && self.last.step as usize <= step {
            return byte_of(self.last, step);
        }
        self.found_byte(step)
    }

    /// The same by a search.
    fn found_byte(&self, step: usize) -> u8
        ensures { result ≡ byte_at self.now step }
    {
        let count = count_up_to(self.entries.as_slice(), step);
        if count == 0 {
            return STILL_BYTE;
        }
        byte_of(self.entries[count - 1], step)
    }
}

/// The byte that an entry gives at a step.
fn byte_of(entry: Entry, step: usize) -> u8
    ensures { result ≡ byte_from entry step }
{
    if entry.step as usize == step {
        entry.byte
    } else {
        repeated_byte(entry.byte)
    }
}

/// How many of ascending entries are of steps up to one. Looks at the last two first.
fn count_up_to(entries: &[Entry], step: usize) -> usize
    requires { AreAscending entries.now }
    ensures within { result ≤ length entries.now }
    ensures last { 0 < result → (nth_entry entries.now (result - 1)).step ≤ step }
    ensures next { result < length entries.now → step < (nth_entry entries.now result).step }
{
    let count = entries.len();
    if count == 0 || entries[count - 1].step as usize <= step {
        return count;
    }
    if count == 1 || entries[count - 2].step as usize <= step {
        return count - 1;
    }
    count_by_halves(entries, step)
}

/// The same by a binary search.
fn count_by_halves(entries: &[Entry], step: usize) -> usize
    ensures within { result ≤ length entries.now }
    ensures last { 0 < result → (nth_entry entries.now (result - 1)).step ≤ step }
    ensures next { result < length entries.now → step < (nth_entry entries.now result).step }
{
    let mut low = 0;
    let mut high = entries.len();
    'halves: while low < high {
        let middle = low + (high - low) / 2;
        if entries[middle].step as usize <= step {
            low = middle + 1;
        } else {
            high = middle;
        }
    }
    low
}
