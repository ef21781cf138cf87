//! The tokens of a text, one after the other.

ghost use Rattle.std.specs.Prelude.{◌≡◌, ◌<◌, ◌≤◌, length};
ghost use Rattle.netlist_trim.specs.Shown.{LieWithin, Takes, seen, shown, stream_of};

use crate::spelled::Spelled;
use netlist_tokens::{LexErr, Lexer, Token};
use std::marker::Model;

/// The tokens of a text that are left.
#[derive(Drop)]
pub struct Reader<'t> {
    text: &'t [u8],
    lexer: Lexer<'t>,
}

impl<'t> Model for Reader<'t> {
    ghost use Rattle.std.specs.Prelude.{length};
    ghost use Rattle.netlist_trim.specs.Shown.{LieWithin, Stream, stream_of};

    ghost Value = { Stream };

    ghost view = { λ r. stream_of r.text.now r.lexer };

    ghost invariant = { λ r. LieWithin (length r.text.now) r.lexer.tokens };
}

impl<'t> Reader<'t> {
    ghost use Rattle.std.specs.Prelude.{◌≡◌, ◌<◌, ◌≤◌, length, OnOk};
    ghost use Rattle.netlist_trim.specs.Reads.{Opens};
    ghost use Rattle.netlist_trim.specs.Shown.{IsStream, Takes};

    /// All tokens of a text.
    pub fn new(text: &'t [u8]) -> Reader<'t>
        ensures { IsStream text.now result }
    {
        Reader {
            text,
            lexer: Lexer::new(text),
        }
    }

    /// The next token, none at the end.
    pub fn next(&mut self) -> Result<Option<Spelled<'t>>, LexErr>
        ensures { Takes self.old result self.new }
    {
        fetch(self.text, &mut self.lexer)
    }

    /// The next token that opens a definition, none where there is none more.
    pub fn next_opening(&mut self) -> Result<Option<Spelled<'t>>, LexErr>
        ensures { Opens self.old result self.new }
    {
        'tokens: while let Some(token) = self.next()? {
            if token.opens() {
                return Ok(Some(token));
            }
        }
        Ok(None)
    }
}

/// The next token of a text, with its bytes.
fn fetch<'t>(text: &'t [u8], lexer: &mut Lexer<'_>) -> Result<Option<Spelled<'t>>, LexErr>
    requires { LieWithin (length text.now) lexer.old.tokens }
    ensures takes { Takes (stream_of text.now lexer.old) result (stream_of text.now lexer.new) }
    ensures within { LieWithin (length text.now) lexer.new.tokens }
{
    match lexer.next_token() {
        Ok(Some(token)) => Ok(Some(spell(text, token))),
        Ok(None) => Ok(None),
        Err(fault) => Err(fault),
    }
}

/// A token with its bytes.
fn spell<'t>(text: &'t [u8], token: Token) -> Spelled<'t>
    requires some { token.start < token.end }
    requires within { token.end ≤ length text.now }
    ensures { seen result ≡ shown text.now token }
{
    Spelled {
        token,
        bytes: &text[token.start..token.end],
    }
}
