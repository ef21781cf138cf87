//! The lines of a text.

ghost use Rattle.std.specs.Prelude.{◌≡◌, ◌+◌, [], length, MatchOption};
ghost use Rattle.sat_dimacs.specs.Machine.{all_lines};
ghost use Rattle.sat_dimacs.specs.Reading.{TakesLine};

use crate::parts::Parts;
use base_scan::Gap;
use std::marker::Model;

/// The lines that are left of a text, and the number of the next.
#[derive(Drop)]
pub struct Lines<'a> {
    parts: Parts<'a>,
    number: usize,
}

impl<'a> Model for Lines<'a> {
    ghost use Rattle.std.specs.Prelude.{◌+◌, ◌<◌, ◌^◌, length};
    ghost use Rattle.sat_dimacs.specs.Machine.{LinesView};

    ghost Value = { LinesView };

    ghost view = { λ lines. record { number = lines.number; lines = lines.parts } };

    ghost invariant = { λ lines. lines.number + length lines.parts < 2 ^ 64 };
}

impl<'a> Lines<'a> {
    /// The lines of a text.
    pub fn new(text: &'a [u8]) -> Lines<'a>
        ensures { result ≡ all_lines text.now }
    {
        Lines {
            parts: Parts::new(text, Gap::Byte(b'\n')),
            number: 1,
        }
    }

    /// The next line, if there is one.
    pub fn next(&mut self) -> Option<&'a [u8]>
        ensures line { MatchOption result (self.old.lines ≡ []) (λ line. TakesLine self.old line.now self.new) }
        ensures over { MatchOption result (self.new ≡ self.old) (λ _. Unit {0}) }
    {
        match self.parts.next() {
            None => None,
            Some(line) => {
                self.number += 1;
                Some(line)
            }
        }
    }

    /// The number of the next line.
    pub fn number(&self) -> usize
        ensures { result ≡ self.now.number }
    {
        self.number
    }
}
