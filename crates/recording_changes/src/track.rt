//! The changes of one code.

ghost use Rattle.std.specs.Prelude.{◌≡◌, ℕ, ◌<◌, ◌≤◌, [], ◌∷◌, ◌++◌, length, nat_le, OnOk, OnErr, true, false};
ghost use Rattle.std.specs.Prelude.{slice_index_or};
ghost use Rattle.std.specs.List.Sorted.{IsNonDecreasingBy};
ghost use Rattle.recording_changes.specs.Stored.{IsBefore, ComeUpTo};

use base_lists::Memory;
use std::alloc::Global;
use std::marker::Model;

/// A change: its moment, and the number of its digits.
#[derive(Clone, Copy)]
pub struct Entry {
    pub moment: u32,
    pub text: u32,
}

#[derive(Drop)]
pub struct Track {
    entries: Vec<Entry>,
}

impl Model for Track {
    ghost use Rattle.std.specs.Prelude.{List};
    ghost use Rattle.recording_changes.specs.declared.track.Entry.{Entry};

    ghost Value = { List Entry };

    ghost view = { λ t. t.entries.items };
}

impl Track {
    pub fn new(alloc: Global) -> Track
        ensures { result ≡ [] }
    {
        Track {
            entries: Vec::new(alloc),
        }
    }

    pub fn push(&mut self, entry: Entry) -> Result<(), Memory>
        ensures added { OnOk result (self.new ≡ self.old ++ entry ∷ []) }
        ensures err { OnErr result (self.new ≡ self.old) }
    {
        self.entries.push(entry)?;
        Ok(())
    }

    pub fn len(&self) -> usize
        ensures { result ≡ length self.now }
    {
        self.entries.len()
    }

    /// How many come in the moment or before it, by halving.
    pub fn count(&self, moment: u32) -> usize
        requires { IsNonDecreasingBy (λ (e : Entry). e.moment) self.now }
        ensures bound { result ≤ length self.now }
        ensures split { ComeUpTo moment self.now result }
    {
        self.entries.as_slice().partition_point(
            |e: &Entry| -> bool
                ensures { result ≡ nat_le e.now.moment moment }
            { e.moment <= moment },
        )
    }

    /// The same, counted on from a hint that isn't past the moment.
    pub fn count_near(&self, moment: u32, hint: usize) -> usize
        requires { IsNonDecreasingBy (λ (e : Entry). e.moment) self.now }
        ensures bound { result ≤ length self.now }
        ensures split { ComeUpTo moment self.now result }
    {
        if self.is_before(moment, hint) {
            count_on(self.entries.as_slice(), moment, hint)
        } else {
            self.count(moment)
        }
    }

    /// Whether that many are there, and all come in the moment or before it.
    fn is_before(&self, moment: u32, count: usize) -> bool
        requires { IsNonDecreasingBy (λ (e : Entry). e.moment) self.now }
        ensures { result ≡ true → IsBefore moment self.now count }
    {
        if count == 0 {
            return true;
        }
        if count > self.entries.len() {
            return false;
        }
        self.entries[count - 1].moment <= moment
    }

    pub fn entry(&self, at: usize) -> Entry
        requires { at < length self.now }
        ensures { (d : Entry) → result ≡ slice_index_or self.now at d }
    {
        self.entries[at]
    }
}

/// How many come in the moment or before it, where that many do.
fn count_on(entries: &[Entry], moment: u32, from: usize) -> usize
    requires sorted { IsNonDecreasingBy (λ (e : Entry). e.moment) entries.now }
    requires from { IsBefore moment entries.now from }
    ensures bound { result ≤ length entries.now }
    ensures split { ComeUpTo moment entries.now result }
{
    let mut count = from;
    'entries: while count < entries.len() && entries[count].moment <= moment {
        count += 1;
    }
    count
}
