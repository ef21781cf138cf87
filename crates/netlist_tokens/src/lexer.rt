//! The lexer.

ghost use Rattle.std.specs.Prelude.{◌≡◌, ◌<◌, ◌≤◌, length, All};
ghost use Rattle.netlist_tokens.specs.Left.{Left as left, Tells, Ascend};
ghost use Rattle.netlist_tokens.specs.Tokens.{Tokens};

use crate::step::next;
use crate::token::{LexErr, Token};
use std::marker::Model;

/// A text, read token by token. Contracts see what is left to tell: the tokens in order, then the fault that ends them,
/// or none.
#[derive(Drop)]
pub struct Lexer<'a> {
    rest: &'a [u8],
    at: usize,
}

impl<'a> Model for Lexer<'a> {
    ghost use Rattle.std.specs.Prelude.{◌+◌, ◌<◌, ◌^◌, length};
    ghost use Rattle.netlist_tokens.specs.Left.{Left};
    ghost use Rattle.netlist_tokens.specs.Scan.{left};

    ghost Value = { Left };

    ghost view = { λ l. left l.at l.rest.now };

    ghost invariant = { λ l. l.at + length l.rest.now < 2 ^ 64 };
}

impl<'a> Lexer<'a> {
    /// A lexer before the first byte. Places count from 0.
    pub fn new(bytes: &'a [u8]) -> Lexer<'a>
        // what it tells is by the rules, and the rules allow nothing else
        ensures rules { Tokens 0 bytes.now result }
        ensures one { (told : left) → Tokens 0 bytes.now told → told ≡ result }

        // each token begins after the one before, has bytes, and lies within the text
        ensures ascend { Ascend 0 result.tokens }
        ensures spans { All (λ t. (t.start < t.end) × (t.end ≤ length bytes.now)) result.tokens }
        ensures count { length result.tokens ≤ length bytes.now }
    {
        Lexer { rest: bytes, at: 0 }
    }

    /// The next token, `None` at the end. The end and a refusal are answered again at each later call.
    pub fn next_token(&mut self) -> Result<Option<Token>, LexErr>
        ensures { Tells self.old result self.new }
    {
        match next(self.rest, self.at) {
            Ok(Some((token, rest))) => {
                self.rest = rest;
                self.at = token.end;
                Ok(Some(token))
            }
            Ok(None) => Ok(None),
            Err(refusal) => Err(refusal),
        }
    }
}
