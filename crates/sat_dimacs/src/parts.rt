//! A text's parts, one after the other: what stands between its gaps.

ghost use Rattle.std.specs.Prelude.{◌≡◌, ◌<◌, ◌≤◌, [], ◌∷◌, length, MatchOption};
ghost use Rattle.sat_dimacs.specs.Lines.{parts};

use base_scan::{Gap, split_at};
use std::marker::Model;

/// The parts that are left of a text.
#[derive(Drop)]
pub struct Parts<'a> {
    rest: &'a [u8],
    gap: Gap,
}

impl<'a> Model for Parts<'a> {
    ghost use Rattle.std.specs.Prelude.{List, ℕ};
    ghost use Rattle.sat_dimacs.specs.Lines.{parts};

    ghost Value = { List (List ℕ) };

    ghost view = { λ p. parts p.gap p.rest.now };
}

impl<'a> Parts<'a> {
    /// The parts of a text.
    #[tactic(auto, using(crate::proofs::PartLaws::parts_few))]
    pub fn new(text: &'a [u8], gap: Gap) -> Parts<'a>
        ensures parts { result ≡ parts gap text.now }
        ensures few { length result ≤ length text.now }
    {
        Parts { rest: text, gap }
    }

    /// The next part, if there is one.
    pub fn next(&mut self) -> Option<&'a [u8]>
        ensures part { MatchOption result (self.old ≡ []) (λ part. self.old ≡ part.now ∷ self.new) }
        ensures over { MatchOption result (self.new ≡ []) (λ _. Unit {0}) }
    {
        let text = self.rest;
        if text.is_empty() {
            return None;
        }
        let (part, rest) = split_part(text, self.gap);
        self.rest = rest;
        Some(part)
    }
}

/// The first part of a text that isn't empty, and what stands after its gap.
fn split_part(text: &[u8], gap: Gap) -> (&[u8], &[u8])
    requires { 0 < length text.now }
    ensures { parts gap text.now ≡ result.0.now ∷ parts gap result.1.now }
{
    let (part, after) = split_at(text, gap);
    match after {
        Some(rest) => (part, rest),
        None => (part, nothing_of(text)),
    }
}

fn nothing_of(text: &[u8]) -> &[u8]
    ensures { result.now ≡ [] }
{
    &text[..0]
}
