//! Tokens as the grammar tells them apart, over the bytes of a text.

ghost use Rattle.std.specs.Prelude.{◌≡◌, IfOk, ◌<◌, ◌≤◌, length};
ghost use Rattle.netlist_grammar.specs.Lexemes as spec;
ghost use Rattle.netlist_reader.specs.Shown.{shown, shown_token, HasSymbols};

use crate::keyword::{is_keyword_left_out, name_lexeme};
use crate::table_symbol::{first_byte, fixed_symbol, only_byte};
use base_lists::Items;
use netlist_grammar::{Fixed, GateKind, ParseErr, Word};
use netlist_tokens::{Kind, LexErr, Token};
use std::alloc::{AllocError, Global};

/// What a token may be read as. Names and numbers are bytes of the text.
#[derive(Clone, Copy)]
pub enum Lexeme<'a> {
    Quoted(Fixed),
    Gate(GateKind),
    /// A name, and whether it is escaped.
    Named(&'a [u8], bool),
    Number(&'a [u8]),
    Mark(u8),
    Quotation,
    Ending,
    Broken(LexErr),
}

/// A token and its first byte.
#[derive(Clone, Copy)]
pub struct TokenAt<'a> {
    pub at: usize,
    pub what: Lexeme<'a>,
}

/// A name, where it stands, and whether it is escaped.
#[derive(Clone, Copy)]
pub struct Name<'a> {
    pub text: &'a [u8],
    pub escaped: bool,
    pub at: usize,
}

impl<'a> Name<'a> {
    ghost use Rattle.netlist_reader.specs.Shown.{word_of_name};

    /// A copy of it.
    pub fn word(self, alloc: Global) -> Result<Word, AllocError>
        ensures { IfOk result (λ w. w ≡ word_of_name self.entry) }
    {
        let text = Vec::from_slice(alloc, self.text)?;
        Ok(Word {
            text: Items::from_vec(text),
            escaped: self.escaped,
            at: self.at,
        })
    }
}

/// A token of a text.
pub fn read_token<'a>(text: &'a [u8], token: Token) -> TokenAt<'a>
    requires order { token.start < token.end }
    requires within { token.end ≤ length text.now }
    ensures { shown_token result ≡ spec.token_of text.now token }
{
    let bytes = &text[token.start..token.end];
    let what = match token.kind {
        Kind::Name => name_lexeme(bytes),
        Kind::Escaped => Lexeme::Named(&bytes[1..], true),
        Kind::Number => Lexeme::Number(bytes),
        Kind::Text => Lexeme::Quotation,
        Kind::Mark => mark(bytes[0]),
    };
    TokenAt {
        at: token.start,
        what,
    }
}

fn mark(b: u8) -> Lexeme<'static>
    ensures { shown result ≡ spec.mark_of b }
{
    match b {
        b'(' => Lexeme::Quoted(Fixed::Open),
        b')' => Lexeme::Quoted(Fixed::Close),
        b'[' => Lexeme::Quoted(Fixed::SquareOpen),
        b']' => Lexeme::Quoted(Fixed::SquareClose),
        b'{' => Lexeme::Quoted(Fixed::BraceOpen),
        b'}' => Lexeme::Quoted(Fixed::BraceClose),
        b',' => Lexeme::Quoted(Fixed::Comma),
        b';' => Lexeme::Quoted(Fixed::Semi),
        b':' => Lexeme::Quoted(Fixed::Colon),
        b'=' => Lexeme::Quoted(Fixed::Equals),
        b'.' => Lexeme::Quoted(Fixed::Dot),
        b'#' => Lexeme::Quoted(Fixed::Hash),
        b'*' => Lexeme::Quoted(Fixed::Star),
        _ => Lexeme::Mark(b),
    }
}

impl<'a> TokenAt<'a> {
    /// Whether an item that begins so is left out by the profile.
    pub fn is_left_out(self) -> bool
        ensures { result ≡ spec.is_left_out (shown_token self.entry).what }
    {
        match self.what {
            Lexeme::Quoted(Fixed::Initial) => true,
            Lexeme::Named(text, false) => is_keyword_left_out(text),
            _ => false,
        }
    }

    /// Its symbols in a table, the first one and those after it.
    pub fn symbols(self) -> Option<(u8, &'a [u8])>
        ensures { HasSymbols (shown_token self.entry).what result }
    {
        match self.what {
            Lexeme::Named(text, false) => first_byte(text),
            Lexeme::Number(text) => first_byte(text),
            Lexeme::Mark(byte) => only_byte(byte),
            Lexeme::Quoted(fixed) => fixed_symbol(fixed),
            _ => None,
        }
    }

    /// Why it may not stand here.
    pub fn fault(self) -> ParseErr
        ensures { result ≡ spec.fault_of (shown_token self.entry) }
    {
        match self.what {
            Lexeme::Broken(fault) => ParseErr::Lex(fault),
            _ => ParseErr::Unexpected { at: self.at },
        }
    }
}
