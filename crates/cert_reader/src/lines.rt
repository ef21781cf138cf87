//! The lines of a text: what stands before each newline.

ghost use Rattle.std.specs.Prelude.{◌≡◌, ◌↔◌, ◌∷◌, [], IfErr, IfOk, IsTrue};
ghost use Rattle.cert_writer.specs.Pieces.{lines_in};
ghost use Rattle.cert_reader.specs.Reading.{TakesLine, TakesNoLine};

use crate::pieces::first_piece;
use crate::refusal::{TextErr, WrongLine};
use std::marker::Model;

/// The lines that are left of a text, and the number of the next.
#[derive(Drop)]
pub struct Lines<'a> {
    rest: &'a [u8],
    number: usize,
}

impl<'a> Model for Lines<'a> {
    ghost use Rattle.std.specs.Prelude.{◌+◌, ◌<◌, ◌^◌, length};
    ghost use Rattle.cert_writer.specs.Pieces.{lines_in};
    ghost use Rattle.cert_reader.specs.Reading.{LinesView};

    ghost Value = { LinesView };

    ghost view = { λ w. record { number = w.number; lines = lines_in w.rest.now } };

    ghost invariant = { λ w. w.number + length w.rest.now < 2 ^ 64 };
}

impl<'a> Lines<'a> {
    /// The lines of a text.
    pub fn new(text: &'a [u8]) -> Lines<'a>
        ensures { result ≡ record { number = 1; lines = lines_in text.now } }
    {
        Lines {
            rest: text,
            number: 1,
        }
    }

    /// The next line, which has a newline after it.
    pub fn next(&mut self) -> Result<&'a [u8], TextErr>
        ensures ok { IfOk result (λ line. TakesLine self.old line.now self.new) }
        ensures err { IfErr result (λ e. TakesNoLine self.old e) }
    {
        let (line, after) = first_piece(self.rest, b'\n');
        match after {
            Some(rest) => {
                self.rest = rest;
                self.number += 1;
                Ok(line)
            }
            None => Err(TextErr::Refused(WrongLine { line: self.number })),
        }
    }

    /// Whether nothing is left.
    pub fn is_over(&self) -> bool
        ensures { IsTrue result ↔ (self.now.lines ≡ [] ∷ []) }
    {
        is_nothing(self.rest)
    }

    /// The number of the next line.
    pub fn number(&self) -> usize
        ensures { result ≡ self.now.number }
    {
        self.number
    }
}

#[tactic(auto, using(crate::proofs::PieceLaws::some_left))]
fn is_nothing(text: &[u8]) -> bool
    ensures { IsTrue result ↔ (lines_in text.now ≡ [] ∷ []) }
{
    match text {
        [] => true,
        [_, ..] => false,
    }
}
