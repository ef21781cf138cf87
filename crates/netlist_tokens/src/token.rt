//! Tokens, and what no token begins with.

ghost use Rattle.std.specs.Prelude.{◌≡◌, Some};
ghost use Rattle.netlist_tokens.specs.Left.{place_of, fault_words};

use std::fmt;

#[derive(Clone, Copy, Debug, PartialEq, Eq, Hash)]
pub enum Kind {
    /// A letter or `_`, then letters, digits, `_` and `$`.
    Name,
    /// A backslash, then bytes 33 to 126. The name is what stands after the backslash.
    Escaped,
    /// A digit, then digits, letters, `_` and `'`.
    Number,
    /// A `"` to the next on its line that has no backslash directly before it, both with it.
    Text,
    /// Any other byte 33 to 126.
    Mark,
}

/// A token and its bytes, `start..end`, counted from 0.
#[derive(Clone, Copy, Debug, PartialEq, Eq, Hash)]
pub struct Token {
    pub kind: Kind,
    pub start: usize,
    pub end: usize,
}

/// Why a text is refused. `at` is a byte, counted from 0.
#[derive(Clone, Copy, Debug, PartialEq, Eq, Hash)]
pub enum LexErr {
    /// A byte that is neither white space nor one of 33 to 126, outside comments and texts.
    BadByte { at: usize },
    /// The `/` of a `/*` that nothing closes.
    OpenComment { at: usize },
    /// A `"` that nothing closes on its line.
    OpenText { at: usize },
    /// The backquote of a directive that isn't read.
    Directive { at: usize },
}

impl LexErr {
    /// The byte that is refused, counted from 0.
    pub fn at(&self) -> usize
        ensures { result ≡ place_of self.now }
    {
        match *self {
            LexErr::BadByte { at } => at,
            LexErr::OpenComment { at } => at,
            LexErr::OpenText { at } => at,
            LexErr::Directive { at } => at,
        }
    }
}

/// The words of a refusal, without the place.
impl fmt::Display for LexErr {
    ghost output = { λ fault. Some (fault_words fault) };

    fn fmt<W: fmt::Write>(&self, f: &mut fmt::Formatter<W>) -> fmt::Result {
        match self {
            LexErr::BadByte { .. } => write!(f, "bad byte"),
            LexErr::OpenComment { .. } => write!(f, "open comment"),
            LexErr::OpenText { .. } => write!(f, "open text"),
            LexErr::Directive { .. } => write!(f, "directive"),
        }
    }
}
