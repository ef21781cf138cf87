//! The words of a line.

ghost use Rattle.std.specs.Prelude.{◌≡◌, ◌∷◌, [], MatchOption};
ghost use Rattle.sat_dimacs.specs.Lines.{words_in};

use crate::parts::Parts;
use base_scan::Gap;
use std::marker::Model;

/// The words that are left of a line.
#[derive(Drop)]
pub struct Words<'a> {
    parts: Parts<'a>,
}

impl<'a> Model for Words<'a> {
    ghost use Rattle.std.specs.Prelude.{List, ℕ, filter};
    ghost use Rattle.sat_dimacs.specs.Lines.{is_filled};

    ghost Value = { List (List ℕ) };

    ghost view = { λ words. filter is_filled words.parts };
}

impl<'a> Words<'a> {
    /// The words of a line, by what stands between them.
    pub fn new(line: &'a [u8], gap: Gap) -> Words<'a>
        ensures { result ≡ words_in gap line.now }
    {
        Words {
            parts: Parts::new(line, gap),
        }
    }

    /// The next word, if there is one.
    pub fn next(&mut self) -> Option<&'a [u8]>
        ensures word { MatchOption result (self.old ≡ []) (λ word. self.old ≡ word.now ∷ self.new) }
        ensures over { MatchOption result (self.new ≡ []) (λ _. Unit {0}) }
    {
        'parts: while let Some(part) = self.parts.next() {
            if !part.is_empty() {
                return Some(part);
            }
        }
        None
    }
}
