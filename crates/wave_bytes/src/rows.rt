//! The bytes of places, row after row of one width, kept by what changes.

ghost use Rattle.std.specs.Prelude.{◌≡◌, ◌⊎◌, ℕ, ◌+◌, ◌-◌, ◌*◌, ◌/◌, ◌%◌, ◌<◌, ◌≤◌, ◌^◌, [], true, false, IfOk};
ghost use Rattle.std.specs.Prelude.{OnErr, OnOk, length, replicate, slice_index_or, vec_capacity, vec_len};
ghost use Rattle.wave_bytes.specs.Anew.{anew_number, nth_anew};
ghost use Rattle.wave_bytes.specs.Rows.{AreAgain, AreAnewBetween, AreCopiedAgain, AreRoots, HasRoom, IsFrontOf};
ghost use Rattle.wave_bytes.specs.Rows.{IsCopyNext, IsOwnNext, IsRowStretch, and_again, and_byte, byte_by};
ghost use Rattle.wave_bytes.specs.Rows.{copied_next, is_again_by, nth_root};
ghost use Rattle.wave_bytes.specs.Track.{with_noted};

use crate::anew::Anew;
use crate::byte::{copied_byte, repeated_byte};
use crate::front::Front;
use crate::track::Track;
use base_lists::Memory;
use std::alloc::Global;
use std::marker::Model;

/// A byte for each place. One that is that of its position a row before, written again, isn't kept, and a position that
/// copies another one has the entries of that. Contracts see what each position copies, and the list of all bytes.
#[derive(Debug, Drop)]
pub struct Rows {
    width: usize,
    steps: usize,
    count: usize,
    /// Where the next place stands.
    front: Front,
    /// What each position copies: itself, where it copies none.
    roots: Vec<u32>,
    tracks: Vec<Track>,
    /// The places that are written anew, in place order.
    log: Vec<Anew>,
}

impl Model for Rows {
    ghost use Rattle.wave_bytes.specs.Rows.{AreNoted, AreRows, RowsView, rows_of};

    ghost Value = { RowsView };

    ghost view = { λ r. rows_of r.width r.steps r.roots.items r.tracks.items r.count };

    ghost invariant = { λ r. record {
      rows : AreRows r.width r.steps r.count r.front r.roots.items r.tracks.items;
      noted : AreNoted r.width r.count r.roots.items r.tracks.items r.log.items;
    } };
}

impl Rows {
    /// None yet, of rows with so many positions, with room for so many rows. Takes 32 bytes for each position.
    pub fn new(alloc: Global, roots: Vec<u32>, steps: usize) -> Result<Rows, Memory>
        requires roots { AreRoots (length roots.items) roots.items }
        requires narrow { length roots.items ≤ 2 ^ 32 }
        requires few { steps ≤ 2 ^ 32 }
        requires small { steps * length roots.items ≤ 2 ^ 40 }
        ensures { IfOk result (λ rows. rows ≡
            record { width = length roots.items; steps = steps; roots = roots.items; bytes = [] }) }
    {
        let width = roots.as_slice().len();
        let tracks = empty_tracks(alloc, width)?;
        let front = Front {
            step: 0,
            position: 0,
        };
        Ok(Rows {
            width,
            steps,
            count: 0,
            front,
            roots,
            tracks,
            log: Vec::new(alloc),
        })
    }

    /// How many places there are.
    pub fn count(&self) -> usize
        ensures { result ≡ length self.now.bytes }
    {
        self.count
    }

    /// The byte of the place of a number: quick for one of the last two rows, else by a binary search of its position's
    /// bytes.
    pub fn byte(&self, number: usize) -> u8
        requires { number < length self.now.bytes }
        ensures { result ≡ slice_index_or self.now.bytes number 0 }
    {
        let place = front_of(number, self.count, self.front, self.width);
        let root = root_of(self.roots.as_slice(), place.position);
        byte_in(self.tracks.as_slice(), place, root)
    }

    /// Whether the position of the next place copies another one.
    pub fn is_copy(&self) -> bool
        requires { HasRoom self.now 1 }
        ensures own { result ≡ false → IsOwnNext self.now }
        ensures copy { result ≡ true → IsCopyNext self.now }
    {
        root_of(self.roots.as_slice(), self.front.position) != self.front.position
    }

    /// The first place from a number on that is written anew, or the end: each place between has the byte of its
    /// position a row before, written again. Costs a binary search.
    pub fn anew_from(&self, number: usize, end: usize) -> usize
        requires number { number ≤ end }
        requires end { end ≤ length self.now.bytes }
        ensures from { number ≤ result }
        ensures within { result ≤ end }
        ensures again { AreAgain self.now number result }
    {
        let count = count_below(self.log.as_slice(), number);
        noted_or(self.log.as_slice(), count, end)
    }

    /// The places from a number on, below an end, that are written anew. Costs two binary searches.
    pub fn anew_between(&self, number: usize, end: usize) -> &[Anew]
        requires number { number ≤ end }
        requires end { end ≤ length self.now.bytes }
        ensures { AreAnewBetween self.now number end result.now }
    {
        let first = count_below(self.log.as_slice(), number);
        let last = count_below(self.log.as_slice(), end);
        &self.log[first..last]
    }

    /// Appends the byte of a place whose position copies nothing. Takes 16 to 32 bytes where it is written anew, as
    /// each of the first row is.
    pub fn push(&mut self, byte: u8) -> Result<(), Memory>
        requires room { HasRoom self.old 1 }
        requires own { IsOwnNext self.old }
        ensures ok { OnOk result (self.new ≡ and_byte self.old byte) }
        ensures err { OnErr result (self.new ≡ self.old) }
    {
        let front = front_past(self.front, self.width, 1);
        let front_now = self.front;
        let again = self.tracks[front_now.position].is_again(front_now.step, byte);
        let place = Anew::new(self.count, byte);
        self.log.reserve(1)?;
        self.tracks[front_now.position].put(front_now.step, byte, again)?;
        note(&mut self.log, place, again);
        self.front = front;
        self.count += 1;
        Ok(())
    }

    /// Appends the byte of a place whose position copies another one. Takes 8 to 16 bytes where it is written anew.
    pub fn push_copy(&mut self) -> Result<(), Memory>
        requires room { HasRoom self.old 1 }
        requires copy { IsCopyNext self.old }
        ensures ok { OnOk result (self.new ≡ and_byte self.old (copied_next self.old)) }
        ensures err { OnErr result (self.new ≡ self.old) }
    {
        let front = front_past(self.front, self.width, 1);
        let root = root_of(self.roots.as_slice(), self.front.position);
        let byte = byte_in(self.tracks.as_slice(), self.front, root);
        let again = is_again_in(self.tracks.as_slice(), self.front, root, byte);
        let place = Anew::new(self.count, byte);
        self.log.reserve(1)?;
        note(&mut self.log, place, again);
        self.front = front;
        self.count += 1;
        Ok(())
    }

    /// Appends the bytes of so many places of one row, each that of its position a row before, written again. Takes no
    /// time and no memory.
    pub fn repeat(&mut self, many: usize)
        requires stretch { IsRowStretch self.old many }
        requires copied { AreCopiedAgain self.old many }
        ensures { self.new ≡ and_again self.old many }
    {
        self.front = front_past(self.front, self.width, many);
        self.count += many;
    }
}

/// What a position copies.
fn root_of(roots: &[u32], position: usize) -> usize
    requires { position < length roots.now }
    ensures { result ≡ nth_root roots.now position }
{
    roots[position] as usize
}

/// The byte at a position of a step, given what the position copies.
fn byte_in(tracks: &[Track], place: Front, root: usize) -> u8
    requires { root < length tracks.now }
    ensures { result ≡ byte_by tracks.now place.position root place.step }
{
    let byte = tracks[root].byte_at(place.step);
    if root == place.position {
        byte
    } else {
        copied_byte(byte)
    }
}

/// Whether it is the one a step before, written again.
fn is_again_in(tracks: &[Track], place: Front, root: usize, byte: u8) -> bool
    requires { root < length tracks.now }
    ensures { result ≡ is_again_by tracks.now place.position root place.step byte }
{
    if place.step == 0 {
        return false;
    }
    let back = Front {
        step: place.step - 1,
        position: place.position,
    };
    byte == repeated_byte(byte_in(tracks, back, root))
}

fn empty_tracks(alloc: Global, width: usize) -> Result<Vec<Track>, Memory>
    ensures { IfOk result (λ tracks. tracks.items ≡ replicate width []) }
{
    let mut tracks = Vec::with_capacity(alloc, width)?;
    'positions: for _ in 0..width {
        tracks.push(Track::new(alloc))?;
    }
    Ok(tracks)
}

/// Appends a place, unless it is written again.
fn note(log: &mut Vec<Anew>, place: Anew, again: bool)
    requires { vec_len log.old < vec_capacity log.old }
    ensures { log.new.items ≡ with_noted log.old.items place again }
{
    if !again {
        log.push_reserved(place);
    }
}

/// How many of places with rising numbers are below a number.
fn count_below(log: &[Anew], number: usize) -> usize
    ensures within { result ≤ length log.now }
    ensures last { 0 < result → anew_number (nth_anew log.now (result - 1)) < number }
    ensures next { result < length log.now → number ≤ anew_number (nth_anew log.now result) }
{
    let mut low = 0;
    let mut high = log.len();
    'halves: while low < high {
        let middle = low + (high - low) / 2;
        if log[middle].number() < number {
            low = middle + 1;
        } else {
            high = middle;
        }
    }
    low
}

/// The number at a place of the log, where there is one below the end, else the end.
fn noted_or(log: &[Anew], at: usize, end: usize) -> usize
    ensures within { result ≤ end }
    ensures here { at < length log.now → result ≤ anew_number (nth_anew log.now at) }
    ensures from { (at < length log.now × result ≡ anew_number (nth_anew log.now at)) ⊎ result ≡ end }
{
    if at < log.len() && log[at].number() < end {
        log[at].number()
    } else {
        end
    }
}

/// Where so many places past the next one stand.
fn front_past(front: Front, width: usize, many: usize) -> Front
    requires narrow { width ≤ 2 ^ 32 }
    requires few { front.step ≤ 2 ^ 32 }
    requires inside { front.position ≤ width - 1 }
    requires one_row { front.position + many ≤ width }
    ensures front { IsFrontOf width (front.step * width + front.position + many) result }
    ensures step { result.step ≤ front.step + many }
{
    if many == 0 {
        return front;
    }
    let position = front.position + many;
    if position < width {
        Front {
            step: front.step,
            position,
        }
    } else {
        Front {
            step: front.step + 1,
            position: 0,
        }
    }
}

/// Where the place of a number stands, given how many places there are and where the next one stands: without a
/// division where it is of the last two rows.
fn front_of(number: usize, count: usize, front: Front, width: usize) -> Front
    requires front { IsFrontOf width count front }
    requires number { number < count }
    ensures step { result.step ≡ number / width }
    ensures position { result.position ≡ number % width }
{
    let start = count - front.position;
    if number >= start {
        Front {
            step: front.step,
            position: number - start,
        }
    } else if start - number <= width {
        Front {
            step: front.step - 1,
            position: width - (start - number),
        }
    } else {
        Front {
            step: number / width,
            position: number % width,
        }
    }
}
