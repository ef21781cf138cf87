//! A set of positions, a bit each, and a bit above for each word of bits that may have any.

ghost use Rattle.std.specs.Prelude.{◌≡◌, ℕ, ◌+◌, ◌*◌, ◌/◌, ◌%◌, ◌<◌, ◌≤◌, ◌^◌, ◌==◌, ◌||◌, true, false, All, IfOk};
ghost use Rattle.std.specs.Prelude.{length, slice_index};
ghost use Rattle.std.specs.Int.{bit_at};
ghost use Rattle.replay_due.specs.Due.{AreAllDue, AreCleared, Covers, GainsAll, HasRoom, HasRoomFor, KeepsOthers};
ghost use Rattle.replay_due.specs.Due.{NoneBetween, is_due};

use base_lists::Memory;
use std::alloc::Global;
use std::marker::Model;

/// The positions that are due, among the first ones. Contracts see the words of its bits.
#[derive(Debug, Drop)]
pub struct Due {
    words: Vec<u64>,
    groups: Vec<u64>,
}

impl Model for Due {
    ghost use Rattle.std.specs.Prelude.{List, ℕ};
    ghost use Rattle.replay_due.specs.Due.{AreLevels};

    ghost Value = { List ℕ };

    ghost view = { λ due. due.words.items };

    ghost invariant = { λ due. AreLevels due.words.items due.groups.items };
}

impl Due {
    /// None of so many positions. Takes a bit for each.
    pub fn none(alloc: Global, count: usize) -> Result<Due, Memory>
        requires { count ≤ 2 ^ 20 }
        ensures room { IfOk result (λ due. HasRoomFor due count) }
        ensures none { IfOk result (λ due. (position : ℕ) → is_due due position ≡ false) }
    {
        let words = vec![in alloc; 0u64; count / 64 + 1]?;
        let groups = vec![in alloc; 0u64; count / 4096 + 1]?;
        Ok(Due { words, groups })
    }

    /// All of so many positions. Takes a bit for each.
    pub fn all(alloc: Global, count: usize) -> Result<Due, Memory>
        requires { count ≤ 2 ^ 20 }
        ensures room { IfOk result (λ due. HasRoomFor due count) }
        ensures all { IfOk result (λ due. AreAllDue due count) }
    {
        let words = vec![in alloc; u64::MAX; count / 64 + 1]?;
        let groups = vec![in alloc; u64::MAX; count / 4096 + 1]?;
        Ok(Due { words, groups })
    }

    /// One more position.
    pub fn insert(&mut self, position: usize)
        requires { HasRoom self.old position }
        ensures long { length self.new ≡ length self.old }
        ensures here { is_due self.new position ≡ true }
        ensures others { KeepsOthers self.old self.new position }
    {
        let place = position / 64;
        let word = self.words[place];
        self.words[place] = word | 1 << (position % 64);
        let group = self.groups[place / 64];
        self.groups[place / 64] = group | 1 << (place % 64);
    }

    /// These positions too.
    pub fn insert_all(&mut self, positions: &[u32])
        requires { All (λ position. HasRoom self.old position) positions.now }
        ensures long { length self.new ≡ length self.old }
        ensures gains { GainsAll self.old self.new positions.now }
    {
        'positions: for position in positions {
            self.insert(*position as usize);
        }
    }

    /// The first position from one on that is due, or one behind all.
    pub fn first_from(&self, from: usize) -> usize
        ensures forward { from ≤ result }
        ensures none { NoneBetween self.now from result }
        ensures due { HasRoom self.now result → is_due self.now result ≡ true }
    {
        let mut position = from;
        'words: while position / 64 < self.words.len() {
            let rest = bits_from(self.words[position / 64], position % 64);
            if rest != 0 {
                return position / 64 * 64 + rest.trailing_zeros() as usize;
            }
            position = first_bit(self.groups.as_slice(), position / 64 + 1) * 64;
        }
        position
    }

    /// No positions.
    pub fn clear(&mut self)
        ensures long { length self.new ≡ length self.old }
        ensures none { (position : ℕ) → is_due self.new position ≡ false }
    {
        clear_words(self.words.as_mut_slice(), self.groups.as_slice());
        clear_all(self.groups.as_mut_slice());
    }
}

/// The first position from one on whose bit is set, or one behind all.
fn first_bit(words: &[u64], from: usize) -> usize
    requires { length words.now ≤ 2 ^ 20 }
    ensures forward { from ≤ result }
    ensures small { from ≤ 64 * length words.now → result ≤ 64 * length words.now }
    ensures none { NoneBetween words.now from result }
{
    let start = from / 64;
    if start >= words.len() {
        return from;
    }
    let rest = bits_from(words[start], from % 64);
    if rest != 0 {
        return start * 64 + rest.trailing_zeros() as usize;
    }
    'places: for place in start + 1..words.len() {
        let word = words[place];
        if word != 0 {
            return place * 64 + word.trailing_zeros() as usize;
        }
    }
    words.len() * 64
}

/// Clears the words that the groups say may have bits, 64 at a time.
fn clear_words(words: &mut [u64], groups: &[u64])
    requires few { length groups.now ≤ 2 ^ 20 }
    requires room { length words.old ≤ 64 * length groups.now }
    requires covers { Covers groups.now words.old }
    ensures { (place : ℕ) → slice_index words.new place ≡ 0 }
{
    'groups: for group in 0..groups.len() {
        if groups[group] != 0 {
            clear_group(words, group * 64);
        }
    }
}

/// Clears 64 words from one on, or those that there are.
fn clear_group(words: &mut [u64], start: usize)
    requires { start < 2 ^ 30 }
    ensures { AreCleared words.old words.new start (start + 64) }
{
    let end = (start + 64).min(words.len());
    'places: for place in start..end {
        words[place] = 0;
    }
}

/// Clears words.
fn clear_all(words: &mut [u64])
    ensures { (place : ℕ) → slice_index words.new place ≡ 0 }
{
    'words: for word in words.iter_mut() {
        *word = 0;
    }
}

/// The bits of a word from one on.
fn bits_from(word: u64, start: usize) -> u64
    requires { start < 64 }
    ensures below { (bit : ℕ) → bit < start → bit_at result bit ≡ 0 }
    ensures from { (bit : ℕ) → start ≤ bit → bit < 64 → bit_at result bit ≡ bit_at word bit }
{
    word & u64::MAX << start
}
