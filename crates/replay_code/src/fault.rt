//! A code's first fault, and its words.

ghost use Rattle.std.specs.Prelude.{◌≡◌, Some};
ghost use Rattle.replay_code.specs.Fault.{fault_at, fault_words};

use std::fmt;

/// Why a code is refused. `at` is a byte, counted from 0; at the end it is the length of the text. Its `Display` has
/// the words.
#[derive(Clone, Copy, Debug, PartialEq, Eq)]
pub enum CodeFault {
    /// A token with which no text of the grammar goes on, or the text's end.
    Syntax { at: usize },
    /// The first name of a path that isn't the scope's with that of a net.
    NoNet { at: usize },
    /// The `#` of a wait for a time that is no moment, or a `force` or `release` where there is none.
    NoMoment { at: usize },
    /// The `#` of a wait for a round that the moment hasn't.
    RoundPast { at: usize },
    /// The first name of a net that is released and isn't forced.
    ReleaseUnforced { at: usize },
}

impl CodeFault {
    /// The byte that is refused, counted from 0.
    pub fn at(&self) -> usize
        ensures { result ≡ fault_at self.now }
    {
        match *self {
            CodeFault::Syntax { at } => at,
            CodeFault::NoNet { at } => at,
            CodeFault::NoMoment { at } => at,
            CodeFault::RoundPast { at } => at,
            CodeFault::ReleaseUnforced { at } => at,
        }
    }
}

impl fmt::Display for CodeFault {
    ghost output = { λ fault. Some (fault_words fault) };

    fn fmt<W: fmt::Write>(&self, f: &mut fmt::Formatter<W>) -> fmt::Result {
        match self {
            CodeFault::Syntax { .. } => f.write_str("syntax"),
            CodeFault::NoNet { .. } => f.write_str("no net"),
            CodeFault::NoMoment { .. } => f.write_str("no moment"),
            CodeFault::RoundPast { .. } => f.write_str("round past"),
            CodeFault::ReleaseUnforced { .. } => f.write_str("release unforced"),
        }
    }
}
