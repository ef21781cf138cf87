//! Words with their places.

ghost use Rattle.std.specs.Prelude.{◌≡◌, ◌∷◌, ◌+◌, ◌<◌, ◌≤◌, ◌^◌, [], length, take, drop, Some, None};
ghost use Rattle.recording_reader.specs.Words.{left_of};
ghost use Rattle.base_scan.specs.Gaps.{first_length};
ghost use Rattle.base_scan.specs.declared.gap.Gap.TheVariants.{White};
ghost use Rattle.recording_reader.specs.Reading.{Takes, Needs};

use crate::refusal::VcdErr;
use base_scan::{Gap, first_length, is_white};
use std::marker::Model;

/// The words of a text that are left to read.
#[derive(Drop)]
pub struct Words<'a> {
    rest: &'a [u8],
    at: usize,
}

impl<'a> Model for Words<'a> {
    ghost use Rattle.std.specs.Prelude.{◌+◌, ◌<◌, ◌^◌, length};
    ghost use Rattle.recording_reader.specs.Words.{Left, left_of};

    ghost Value = { Left };

    ghost view = { λ w. left_of w.at w.rest.now };

    ghost invariant = { λ w. w.at + length w.rest.now < 2 ^ 64 };
}

impl<'a> Words<'a> {
    ghost use Rattle.std.specs.Prelude.{◌≡◌, length};
    ghost use Rattle.recording_reader.specs.Words.{left_of};
    ghost use Rattle.recording_reader.specs.Reading.{Takes, Needs};

    pub fn new(bytes: &'a [u8]) -> Words<'a>
        ensures { result ≡ left_of 0 bytes.now }
    {
        Words { rest: bytes, at: 0 }
    }

    /// The next word with its place, if there is one.
    pub fn next(&mut self) -> Option<(usize, &'a [u8])>
        ensures { Takes self.old result self.new }
    {
        let (answer, rest, at) = next_word(self.rest, self.at);
        self.rest = rest;
        self.at = at;
        answer
    }

    /// The next word with its place, or the refusal of a text that ends here.
    pub fn need(&mut self) -> Result<(usize, &'a [u8]), VcdErr>
        ensures { Needs self.old result self.new }
    {
        match self.next() {
            Some(word) => Ok(word),
            None => Err(VcdErr::Truncated {
                at: self.at + self.rest.len(),
            }),
        }
    }

    /// The length of the text.
    pub fn stop(&self) -> usize
        ensures { result ≡ self.now.stop }
    {
        self.at + self.rest.len()
    }
}

/// The next word of these bytes, what is left after it, and the place of that.
fn next_word(bytes: &[u8], start: usize) -> (Option<(usize, &[u8])>, &[u8], usize)
    requires { start + length bytes.now < 2 ^ 64 }
    ensures tells { Takes (left_of start bytes.now) result.0 (left_of result.2 result.1.now) }
    ensures fits { result.2 + length result.1.now ≡ start + length bytes.now }
{
    let mut rest = bytes;
    let mut at = start;
    'white: while let [b, after @ ..] = rest {
        if !is_white(*b) {
            let (text, after) = split_word(rest);
            return (Some((at, text)), after, at + text.len());
        }
        rest = after;
        at += 1;
    }
    (None, rest, at)
}

fn split_word(bytes: &[u8]) -> (&[u8], &[u8])
    ensures front { result.0.now ≡ take (first_length White bytes.now) bytes.now }
    ensures back { result.1.now ≡ drop (first_length White bytes.now) bytes.now }
    ensures fits { length result.0.now + length result.1.now ≡ length bytes.now }
    ensures within { first_length White bytes.now ≤ length bytes.now }
{
    bytes.split_at(first_length(bytes, Gap::White))
}
