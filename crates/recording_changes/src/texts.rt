//! Texts one after the other, by number.

ghost use Rattle.std.specs.Prelude.{◌≡◌, ℕ, ◌+◌, ◌-◌, ◌<◌, ◌≤◌, ◌^◌, [], ◌∷◌, ◌++◌, List, length, OnOk, OnErr, IfOk};
ghost use Rattle.std.specs.Prelude.{slice_index, slice_index_or, slice_range};

use base_lists::Memory;
use std::alloc::Global;
use std::marker::Model;

/// Texts, each by its number. A text takes its bytes and four more.
#[derive(Drop)]
pub struct Texts {
    bytes: Vec<u8>,
    ends: Vec<u32>,
}

impl Model for Texts {
    ghost use Rattle.std.specs.Prelude.{List, ℕ, length};
    ghost use Rattle.recording_changes.specs.Texts.{cut, IsCut};

    ghost Value = { List (List ℕ) };

    ghost view = { λ t. cut t.bytes.items 0 t.ends.items };

    ghost invariant = { λ t. IsCut (length t.bytes.items) 0 t.ends.items };
}

impl Texts {
    /// No texts.
    pub fn new(alloc: Global) -> Texts
        ensures { result ≡ [] }
    {
        Texts {
            bytes: Vec::new(alloc),
            ends: Vec::new(alloc),
        }
    }

    /// How many there are.
    pub fn len(&self) -> usize
        ensures { result ≡ length self.now }
    {
        self.ends.len()
    }

    /// A text after the others. More than 2^32 - 1 bytes count as out of memory.
    pub fn push(&mut self, text: &[u8]) -> Result<(), Memory>
        ensures added { OnOk result (self.new ≡ self.old ++ text.now ∷ []) }
        ensures err { OnErr result (self.new ≡ self.old) }
    {
        let start = self.bytes.len();
        let end = start.saturating_add(text.len());
        if end > u32::MAX as usize {
            return Err(Memory);
        }
        self.bytes.extend_from_slice(text)?;
        match self.ends.push(end as u32) {
            Ok(_) => Ok(()),
            Err(_) => {
                self.bytes.truncate(start);
                Err(Memory)
            }
        }
    }

    /// The text with this number.
    pub fn get(&self, number: usize) -> &[u8]
        requires { number < length self.now }
        ensures { result.now ≡ slice_index_or self.now number [] }
    {
        let start = start_of(self.ends.as_slice(), number);
        let end = self.ends[number];
        part(self.bytes.as_slice(), start, end)
    }
}

/// Where the text with this number starts.
fn start_of(ends: &[u32], number: usize) -> u32
    requires { number < length ends.now }
    ensures { result ≡ slice_index (0 ∷ ends.now) number }
{
    if number == 0 { 0 } else { ends[number - 1] }
}

fn part(bytes: &[u8], start: u32, end: u32) -> &[u8]
    requires order { start ≤ end }
    requires within { end ≤ length bytes.now }
    ensures { result.now ≡ slice_range bytes.now start end }
{
    &bytes[start as usize..end as usize]
}
