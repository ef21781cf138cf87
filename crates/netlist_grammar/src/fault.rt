//! What is wrong with a text that is none of the grammar, and its words.

ghost use Rattle.std.specs.Prelude.{◌≡◌, Some};
ghost use Rattle.netlist_grammar.specs.Fault.{fault_at, fault_words};

use netlist_tokens::LexErr;
use std::fmt;

/// The first token with which no text of the grammar goes on. `at` is its first byte, or the length of the text at its
/// end.
#[derive(Clone, Copy, Debug, PartialEq, Eq)]
pub enum NetlistFault {
    /// There is no token.
    Lex(LexErr),
    /// The token may not stand here.
    Unexpected { at: usize },
    /// The token begins an item that the profile leaves out.
    OutOfProfile { at: usize },
}

impl NetlistFault {
    /// The byte that is refused, counted from 0, or the length of the text at its end.
    pub fn at(&self) -> usize
        ensures { result ≡ fault_at self.now }
    {
        match *self {
            NetlistFault::Lex(fault) => fault.at(),
            NetlistFault::Unexpected { at } => at,
            NetlistFault::OutOfProfile { at } => at,
        }
    }
}

/// The words of a refusal, without the place.
impl fmt::Display for NetlistFault {
    ghost output = { λ fault. Some (fault_words fault) };

    fn fmt<W: fmt::Write>(&self, f: &mut fmt::Formatter<W>) -> fmt::Result {
        match self {
            NetlistFault::Lex(fault) => write!(f, "{fault}"),
            NetlistFault::Unexpected { .. } => write!(f, "unexpected"),
            NetlistFault::OutOfProfile { .. } => write!(f, "out of profile"),
        }
    }
}
