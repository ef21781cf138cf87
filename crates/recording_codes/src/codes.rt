//! Codes in the order of their declaration.

ghost use Rattle.std.specs.Prelude.{◌≡◌, true, false, ℕ, ◌<◌, [], ◌∷◌, ◌++◌, OnOk, None, length, slice_index};
ghost use Rattle.recording_codes.specs.Code.{find, code, with_kind_at};
ghost use Rattle.recording_codes.specs.Slots.{is_short, stored_number, slot_number};

use crate::columns::Columns;
use crate::slots::{is_short, slot_of};
use base_lists::Memory;
use indexmap::IndexMap;
use std::alloc::Global;
use std::marker::Model;

/// A code that was found: its number from 0, its width, whether some variable with it is skipped, and whether some is
/// listed.
#[derive(Clone, Copy)]
pub struct Found {
    pub number: usize,
    pub width: u32,
    pub skipped: bool,
    pub listed: bool,
}

/// The codes of a text, in the order of their declaration. A code takes 24 bytes and its place in a table of at most
/// 2,572,125 numbers, or in a map where it isn't short.
#[derive(Drop)]
pub struct Codes<'a> {
    columns: Columns<'a>,
    slots: Vec<u32>,
    others: IndexMap<&'a [u8], u32>,
}

impl<'a> Model for Codes<'a> {
    ghost use Rattle.std.specs.Prelude.{List};
    ghost use Rattle.recording_codes.specs.Code.{Code};
    ghost use Rattle.recording_codes.specs.Slots.{Knows};

    ghost Value = { List Code };

    ghost view = { λ c. c.columns };

    ghost invariant = { λ c. Knows c.slots.items c.others.entries c.columns };
}

impl<'a> Codes<'a> {
    ghost use Rattle.std.specs.Prelude.{◌≡◌, true, false, [], ◌∷◌, ◌++◌, OnOk, None, length};
    ghost use Rattle.recording_codes.specs.Code.{find, code, with_kind_at};
    ghost use Rattle.recording_codes.specs.Slots.{is_short};

    /// No codes.
    pub fn new(alloc: Global) -> Codes<'a>
        ensures { result ≡ [] }
    {
        Codes {
            columns: Columns::new(alloc),
            slots: Vec::new(alloc),
            others: IndexMap::new(alloc),
        }
    }

    /// How many there are.
    pub fn len(&self) -> usize
        ensures { result ≡ length self.now }
    {
        self.columns.len()
    }

    /// The code with this text.
    pub fn find(&self, text: &[u8]) -> Option<Found>
        ensures { result ≡ find self.now text.now }
    {
        let number = match stored_number(self.slots.as_slice(), &self.others, text) {
            None => return None,
            Some(number) => number as usize,
        };
        let mark = self.columns.mark(number);
        Some(Found {
            number,
            width: mark.width,
            skipped: mark.skipped,
            listed: mark.listed,
        })
    }

    /// A new code, of one variable, which takes the next number. More than 2^32 - 2 codes count as out of memory.
    pub fn add(&mut self, text: &'a [u8], width: u32, skipped: bool) -> Result<(), Memory>
        requires { find self.old text.now ≡ None }
        ensures { OnOk result (self.new ≡ self.old ++ code text.now width skipped ∷ []) }
    {
        if is_short(text) {
            self.add_short(text, width, skipped)
        } else {
            self.add_other(text, width, skipped)
        }
    }

    /// One more variable of the code with this number.
    pub fn add_kind(&mut self, number: usize, skipped: bool)
        requires { number < length self.old }
        ensures { self.new ≡ with_kind_at self.old number skipped }
    {
        self.columns.add_kind(number, skipped);
    }

    fn add_short(&mut self, text: &'a [u8], width: u32, skipped: bool) -> Result<(), Memory>
        requires new { find self.old text.now ≡ None }
        requires short { is_short text.now ≡ true }
        ensures { OnOk result (self.new ≡ self.old ++ code text.now width skipped ∷ []) }
    {
        let number = self.columns.len();
        if number >= u32::MAX as usize {
            return Err(Memory);
        }
        let slot = slot_of(text);
        reach(&mut self.slots, slot)?;
        self.columns.push(text, width, skipped)?;
        self.slots[slot] = number as u32 + 1;
        Ok(())
    }

    fn add_other(&mut self, text: &'a [u8], width: u32, skipped: bool) -> Result<(), Memory>
        requires new { find self.old text.now ≡ None }
        requires long { is_short text.now ≡ false }
        ensures { OnOk result (self.new ≡ self.old ++ code text.now width skipped ∷ []) }
    {
        let number = self.columns.len();
        if number >= u32::MAX as usize {
            return Err(Memory);
        }
        self.columns.push(text, width, skipped)?;
        match self.others.insert(text, number as u32) {
            Ok(_) => Ok(()),
            Err(_) => {
                self.columns.truncate(number);
                Err(Memory)
            }
        }
    }
}

/// The number of a code, by the table and the map.
fn stored_number(slots: &[u32], others: &IndexMap<&[u8], u32>, text: &[u8]) -> Option<u32>
    ensures { result ≡ stored_number slots.now others.now.entries text.now }
{
    if is_short(text) {
        return slot_number(slots, slot_of(text));
    }
    match others.get(text) {
        Some(number) => Some(*number),
        None => None,
    }
}

fn slot_number(slots: &[u32], slot: usize) -> Option<u32>
    ensures { result ≡ slot_number (slice_index slots.now slot) }
{
    if slot >= slots.len() || slots[slot] == 0 {
        return None;
    }
    Some(slots[slot] - 1)
}

/// Empty slots up to this one.
fn reach(slots: &mut Vec<u32>, slot: usize) -> Result<(), Memory>
    ensures same { (k : ℕ) → slice_index slots.new.items k ≡ slice_index slots.old.items k }
    ensures there { OnOk result (slot < length slots.new.items) }
{
    'slots: while slots.len() <= slot {
        slots.push(0)?;
    }
    Ok(())
}
