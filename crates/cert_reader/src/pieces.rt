//! The words of a line: what stands between its spaces.

ghost use Rattle.std.specs.Prelude.{◌≡◌, ◌<◌, [], ◌∷◌, length, IfErr, IfOk, IfSome, MatchOption};
ghost use Rattle.cert_writer.specs.Pieces.{pieces, words_in};

use crate::refusal::LineErr;
use base_scan::{Gap, split_at};
use std::marker::Model;

/// The words of a line that are left to read.
#[derive(Drop)]
pub struct Words<'a> {
    rest: &'a [u8],
    over: bool,
}

impl<'a> Model for Words<'a> {
    ghost use Rattle.std.specs.Prelude.{List, ℕ, [], if◌then◌else◌};
    ghost use Rattle.cert_writer.specs.Pieces.{words_in};

    ghost Value = { List (List ℕ) };

    ghost view = { λ w. if w.over then [] else words_in w.rest.now };
}

impl<'a> Words<'a> {
    /// The words of a line.
    pub fn new(line: &'a [u8]) -> Words<'a>
        ensures { result ≡ words_in line.now }
    {
        Words {
            rest: line,
            over: false,
        }
    }

    /// The next word, if there is one.
    pub fn next(&mut self) -> Option<&'a [u8]>
        ensures none { MatchOption result (self.old ≡ []) (λ word. self.old ≡ word.now ∷ self.new) }
        ensures over { MatchOption result (self.new ≡ []) (λ _. Unit {0}) }
    {
        if self.over {
            return None;
        }
        let (word, after) = first_piece(self.rest, b' ');
        match after {
            Some(rest) => self.rest = rest,
            None => self.over = true,
        }
        Some(word)
    }

    /// The next word, which there must be.
    pub fn need(&mut self) -> Result<&'a [u8], LineErr>
        ensures ok { IfOk result (λ word. self.old ≡ word.now ∷ self.new) }
        ensures err { IfErr result (λ e. (self.old ≡ []) × (e ≡ LineErr.Wrong)) }
    {
        match self.next() {
            Some(word) => Ok(word),
            None => Err(LineErr::Wrong),
        }
    }
}

/// The first piece of these bytes, and what stands after the cut that ends it, if one does.
pub fn first_piece(bytes: &[u8], cut: u8) -> (&[u8], Option<&[u8]>)
    ensures pieces { MatchOption result.1 (pieces cut bytes.now ≡ result.0.now ∷ [])
        (λ rest. pieces cut bytes.now ≡ result.0.now ∷ pieces cut rest.now) }
    ensures shorter { IfSome result.1 (λ rest. length rest.now < length bytes.now) }
{
    split_at(bytes, Gap::Byte(cut))
}
