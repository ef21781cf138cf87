//! The changes of all codes.

ghost use Rattle.std.specs.Prelude.{◌≡◌, ℕ, ◌+◌, ◌<◌, ◌≤◌, ◌^◌, [], ◌∷◌, ◌++◌, List, length, IfOk, OnOk, OnErr};
ghost use Rattle.std.specs.Prelude.{slice_index, slice_index_or};
ghost use Rattle.recording_changes.specs.Last.{IsLastValue};
ghost use Rattle.recording_changes.specs.Held.{bit_value, change, digit_value, extended, fill_of, held, moments_of};
ghost use Rattle.recording_changes.specs.Held.{track_of, unknown, with_last};

use crate::digits::Digits;
use crate::track::{Entry, Track};
use base_lists::Memory;
use design_cell::Value;
use std::alloc::Global;
use std::marker::Model;

/// The changes of codes, each code by its number. A change takes 8 bytes, and one of more than a single digit 4 more
/// and a byte for each digit.
#[derive(Drop)]
pub struct Changes {
    digits: Digits,
    tracks: Vec<Track>,
    moment: u32,
}

impl Model for Changes {
    ghost use Rattle.std.specs.Prelude.{length, All};
    ghost use Rattle.recording_changes.specs.Held.{History};
    ghost use Rattle.recording_changes.specs.Stored.{shown, IsTrack};

    ghost Value = { History };

    ghost view = { λ c. shown c.moment c.digits c.tracks.items };

    ghost invariant = { λ c. All (IsTrack (length c.digits) c.moment) c.tracks.items };
}

impl Changes {
    /// No codes.
    pub fn new(alloc: Global) -> Result<Changes, Memory>
        ensures { IfOk result (λ changes. changes ≡ record { moment = 0; tracks = [] }) }
    {
        let digits = Digits::new(alloc)?;
        Ok(Changes {
            digits,
            tracks: Vec::new(alloc),
            moment: 0,
        })
    }

    /// One more code, without changes.
    pub fn open(&mut self, alloc: Global) -> Result<(), Memory>
        ensures opened { OnOk result (self.new ≡ record self.old { tracks = self.old.tracks ++ [] ∷ [] }) }
    {
        self.tracks.push(Track::new(alloc))?;
        Ok(())
    }

    /// A change of the code in a moment that is the last one or comes after it.
    pub fn add(&mut self, code: usize, moment: u32, digits: &[u8]) -> Result<(), Memory>
        requires code { code < length self.old.tracks }
        requires ascends { self.old.moment ≤ moment }
        ensures added { OnOk result (self.new ≡ with_last self.old code (change moment digits.now)) }
        ensures moment { self.new.moment ≤ moment }
        ensures codes { length self.new.tracks ≡ length self.old.tracks }
    {
        let text = self.digits.add(digits)?;
        self.moment = moment;
        let track = &mut self.tracks[code];
        track.push(Entry { moment, text })?;
        Ok(())
    }

    /// How many changes the code has.
    pub fn count(&self, code: usize) -> usize
        ensures { result ≡ length (track_of self.now.tracks code) }
    {
        if code >= self.tracks.len() {
            return 0;
        }
        let track = &self.tracks[code];
        track.len()
    }

    /// The moment of a change of the code, by its number among them.
    pub fn moment_of(&self, code: usize, number: usize) -> u32
        requires { number < length (track_of self.now.tracks code) }
        ensures { result ≡ slice_index (moments_of (track_of self.now.tracks code)) number }
    {
        let track = &self.tracks[code];
        track.entry(number).moment
    }

    /// The value of one bit of a code, counted from the left, in the moment: of a code without a number x. Takes no
    /// memory, and time by the logarithm of the number of the code's changes.
    pub fn value(&self, code: usize, width: u32, bit: u32, moment: u32) -> Value
        requires { bit < width }
        ensures is { result ≡ bit_value (track_of self.now.tracks code) width bit moment }
        ensures last { IsLastValue (track_of self.now.tracks code) width bit moment result }
    {
        let (value, _) = self.value_near(code, width, bit, moment, usize::MAX);
        value
    }

    /// The same from a hint on: how many changes of the code came in some moment or before it. The answer has that
    /// number for this moment, and the time is what lies between; any other hint is as good as none.
    #[tactic(auto, using(crate::proofs::LastLemmas::is_last_value))]
    pub fn value_near(
        &self,
        code: usize,
        width: u32,
        bit: u32,
        moment: u32,
        hint: usize,
    ) -> (Value, usize)
        requires { bit < width }
        ensures is { result.0 ≡ bit_value (track_of self.now.tracks code) width bit moment }
        ensures last { IsLastValue (track_of self.now.tracks code) width bit moment result.0 }
    {
        let (digits, count) = self.digits(code, moment, hint);
        (bit_value(digits, width as usize, bit as usize), count)
    }

    /// The digits that the code holds in the moment.
    fn digits(&self, code: usize, moment: u32, hint: usize) -> (&[u8], usize)
        ensures { result.0.now ≡ held moment (track_of self.now.tracks code) unknown }
    {
        if code >= self.tracks.len() {
            return (b"x".as_slice(), 0);
        }
        let track = &self.tracks[code];
        let count = track.count_near(moment, hint);
        if count == 0 {
            return (b"x".as_slice(), 0);
        }
        let entry = track.entry(count - 1);
        (self.digits.get(entry.text), count)
    }
}

/// The value of a bit, counted from the left, of digits that are extended on the left to the width.
fn bit_value(digits: &[u8], width: usize, bit: usize) -> Value
    requires { bit < width }
    ensures { result ≡ digit_value (slice_index (extended width digits.now) bit) }
{
    let missing = width.saturating_sub(digits.len());
    if bit < missing {
        digit_value(fill(digits))
    } else {
        digit_value(digits[bit - missing])
    }
}

/// What stands on the left of these digits.
fn fill(digits: &[u8]) -> u8
    ensures { result ≡ fill_of (slice_index digits.now 0) }
{
    match digits {
        [] => 0,
        [b'1', ..] => b'0',
        [first, ..] => *first,
    }
}

/// The value of a digit.
fn digit_value(digit: u8) -> Value
    ensures { result ≡ digit_value digit }
{
    match digit {
        b'0' => Value::Zero,
        b'1' => Value::One,
        b'x' | b'X' => Value::X,
        _ => Value::Z,
    }
}
