//! The tokens of a text, read one ahead.

ghost use Rattle.std.specs.Prelude.{◌≡◌, ◌-◌, ◌≤◌, ◌==◌, length};
ghost use Rattle.std.specs.Bool.{OnTrue};
ghost use Rattle.netlist_grammar.specs.Lexemes.{tokens_of, code};
ghost use Rattle.netlist_reader.specs.Shown.{shown_token};
ghost use Rattle.netlist_reader.specs.Ahead.{ahead, LieWithin};

use crate::lexeme::{Lexeme, Name, TokenAt, read_token};
use crate::number::{bit_of, int_of, literal_of};
use design_cell::Value;
use netlist_grammar::{Fixed, GateKind, ParseErr, Word};
use netlist_tokens::{LexErr, Lexer};
use std::alloc::Global;
use std::marker::Model;

/// The tokens of a text that are left. The next one is read already.
#[derive(Drop)]
pub struct Reader<'a> {
    text: &'a [u8],
    lexer: Lexer<'a>,
    here: TokenAt<'a>,
}

impl<'a> Model for Reader<'a> {
    ghost use Rattle.std.specs.Prelude.{length};
    ghost use Rattle.netlist_grammar.specs.Lexemes.{TokenStream, tokens_of};
    ghost use Rattle.netlist_reader.specs.Shown.{shown_token};
    ghost use Rattle.netlist_reader.specs.Ahead.{ahead, CanRead};

    ghost Value = { TokenStream };

    ghost view = { λ r. ahead (shown_token r.here) (tokens_of r.text.now r.lexer) };

    ghost invariant = { λ r. CanRead (length r.text.now) r.lexer };
}

/// The next token, or what stands at the end.
fn fetch<'a>(text: &'a [u8], lexer: &mut Lexer<'_>) -> TokenAt<'a>
    requires { LieWithin (length text.now) lexer.old.tokens }
    ensures reads { tokens_of text.now lexer.old ≡ ahead (shown_token result) (tokens_of text.now lexer.new) }
    ensures within { LieWithin (length text.now) lexer.new.tokens }
    ensures fewer { length lexer.new.tokens ≤ length lexer.old.tokens - 1 }
{
    match lexer.next_token() {
        Ok(Some(token)) => read_token(text, token),
        Ok(None) => TokenAt {
            at: text.len(),
            what: Lexeme::Ending,
        },
        Err(fault) => TokenAt {
            at: fault.at(),
            what: Lexeme::Broken(fault),
        },
    }
}

#[tactic(auto, using(crate::proofs::Codes::same_code))]
fn are_same(found: Fixed, wanted: Fixed) -> bool
    ensures codes { result ≡ (code found == code wanted) }
    ensures same { OnTrue result (found ≡ wanted) }
{
    found.code() == wanted.code()
}

impl<'a> Reader<'a> {
    ghost use Rattle.std.specs.Prelude.{◌≡◌, ◌≢◌, [], ◌<◌, ◌^◌, length};
    ghost use Rattle.std.specs.Bool.{OnTrue};
    ghost use Rattle.netlist_tokens.specs.Left.{Left as left};
    ghost use Rattle.netlist_tokens.specs.Tokens.{Tokens};
    ghost use Rattle.netlist_grammar.specs.Lexemes.{tokens_of, head, gate_kind_of, int_at, bit_at, literal_at};
    ghost use Rattle.netlist_grammar.specs.Lexemes.{is_left_out};
    ghost use Rattle.netlist_reader.specs.Shown.{shown_token};
    ghost use Rattle.netlist_reader.specs.Reads.{TakesFixed, ExpectsFixed, TakesName, ExpectsName, ExpectsWord};
    ghost use Rattle.netlist_reader.specs.Reads.{TakesAs, ExpectsAs, GoesOn, TakesSymbols, TakesSymbol, ExpectsFew};
    ghost use Rattle.netlist_reader.specs.Reads.{Skips, Ends};

    pub fn new(text: &'a [u8]) -> Reader<'a>
        ensures told { (told : left) × Tokens 0 text.now told }
        ensures tokens { (told : left) → Tokens 0 text.now told → result ≡ tokens_of text.now told }
    {
        let mut lexer = Lexer::new(text);
        let here = fetch(text, &mut lexer);
        Reader { text, lexer, here }
    }

    pub fn peek(&self) -> TokenAt<'a>
        ensures head { shown_token result ≡ head self.now }
        ensures few { length self.now.tokens < 2 ^ 64 }
    {
        self.here
    }

    /// The byte of the next token.
    pub fn at(&self) -> usize
        ensures place { result ≡ (head self.now).at }
        ensures few { length self.now.tokens < 2 ^ 64 }
    {
        self.peek().at
    }

    /// Whether an item that begins here is left out by the profile.
    pub fn is_left_out(&self) -> bool
        ensures left_out { result ≡ is_left_out (head self.now).what }
        ensures within { OnTrue result (self.now.tokens ≢ []) }
    {
        self.here.is_left_out()
    }

    pub fn take(&mut self, fixed: Fixed) -> bool
        ensures { TakesFixed fixed self.old result self.new }
    {
        let here = self.here;
        match here.what {
            Lexeme::Quoted(found) if are_same(found, fixed) => {
                self.here = fetch(self.text, &mut self.lexer);
                true
            }
            _ => false,
        }
    }

    pub fn expect(&mut self, fixed: Fixed) -> Result<(), ParseErr>
        ensures { ExpectsFixed fixed self.old result self.new }
    {
        if self.take(fixed) {
            Ok(())
        } else {
            Err(self.peek().fault())
        }
    }

    pub fn take_name(&mut self) -> Option<Name<'a>>
        ensures { TakesName self.old result self.new }
    {
        let here = self.here;
        match here.what {
            Lexeme::Named(text, escaped) => {
                self.here = fetch(self.text, &mut self.lexer);
                Some(Name {
                    text,
                    escaped,
                    at: here.at,
                })
            }
            _ => None,
        }
    }

    pub fn name(&mut self) -> Result<Name<'a>, ParseErr>
        ensures { ExpectsName self.old result self.new }
    {
        match self.take_name() {
            Some(name) => Ok(name),
            None => Err(self.peek().fault()),
        }
    }

    /// A copy of a name.
    pub fn word(&mut self, alloc: Global) -> Result<Word, ParseErr>
        ensures { ExpectsWord self.old result self.new }
    {
        Ok(self.name()?.word(alloc)?)
    }

    pub fn take_gate(&mut self) -> Option<GateKind>
        ensures { TakesAs (λ t. gate_kind_of t.what) self.old result self.new }
    {
        let here = self.here;
        match here.what {
            Lexeme::Gate(kind) => {
                self.here = fetch(self.text, &mut self.lexer);
                Some(kind)
            }
            _ => None,
        }
    }

    pub fn int(&mut self) -> Result<u32, ParseErr>
        ensures { ExpectsAs (λ t. int_at t.what) self.old result self.new }
    {
        let here = self.here;
        if let Lexeme::Number(text) = here.what {
            if let Some(number) = int_of(text) {
                self.here = fetch(self.text, &mut self.lexer);
                return Ok(number);
            }
        }
        Err(here.fault())
    }

    pub fn bit(&mut self) -> Result<Value, ParseErr>
        ensures { ExpectsAs (λ t. bit_at t.what) self.old result self.new }
    {
        let here = self.here;
        if let Lexeme::Number(text) = here.what {
            if let Some(value) = bit_of(text) {
                self.here = fetch(self.text, &mut self.lexer);
                return Ok(value);
            }
        }
        Err(here.fault())
    }

    /// A literal's size in bits and its value.
    pub fn literal(&mut self) -> Result<(u32, u128), ParseErr>
        ensures { ExpectsAs (λ t. literal_at t.what) self.old result self.new }
    {
        let here = self.here;
        if let Lexeme::Number(text) = here.what {
            if let Some(literal) = literal_of(text) {
                self.here = fetch(self.text, &mut self.lexer);
                return Ok(literal);
            }
        }
        Err(here.fault())
    }

    /// Whether a list goes on after a comma, or is closed.
    pub fn more(&mut self, close: Fixed) -> Result<bool, ParseErr>
        ensures { GoesOn close self.old result self.new }
    {
        if self.take(Fixed::Comma) {
            return Ok(true);
        }
        self.expect(close)?;
        Ok(false)
    }

    /// The symbols of a table that a token has, the first one and those after it.
    pub fn take_symbols(&mut self) -> Option<(u8, &'a [u8])>
        ensures { TakesSymbols self.old result self.new }
    {
        let symbols = self.here.symbols()?;
        self.here = fetch(self.text, &mut self.lexer);
        Some(symbols)
    }

    /// The symbol of a token that has one.
    pub fn take_symbol(&mut self) -> Option<u8>
        ensures { TakesSymbol self.old result self.new }
    {
        match self.here.symbols() {
            Some((first, [])) => {
                self.here = fetch(self.text, &mut self.lexer);
                Some(first)
            }
            _ => None,
        }
    }

    /// The symbols of a token that has one or two.
    pub fn few_symbols(&mut self) -> Result<(u8, Option<u8>), ParseErr>
        ensures { ExpectsFew self.old result self.new }
    {
        let here = self.here;
        let few = match here.symbols() {
            Some((first, [])) => (first, None),
            Some((first, [second])) => (first, Some(*second)),
            _ => return Err(here.fault()),
        };
        self.here = fetch(self.text, &mut self.lexer);
        Ok(few)
    }

    /// Takes any token.
    pub fn skip(&mut self) -> Result<(), ParseErr>
        ensures { Skips self.old result self.new }
    {
        let here = self.here;
        match here.what {
            Lexeme::Ending | Lexeme::Broken(_) => Err(here.fault()),
            _ => {
                self.here = fetch(self.text, &mut self.lexer);
                Ok(())
            }
        }
    }

    /// Nothing is left.
    pub fn end(&self) -> Result<(), ParseErr>
        ensures { Ends self.now result }
    {
        match self.here.what {
            Lexeme::Ending => Ok(()),
            _ => Err(self.here.fault()),
        }
    }
}
