//! A text's first fault, and its words.

ghost use Rattle.std.specs.Prelude.{◌≡◌, Some};
ghost use Rattle.sat_dimacs.specs.Faults.{fault_line, fault_words};

use std::fmt;

/// Why a text is refused. `line` counts from 1; at the end it is that of the line after the last. Its `Display` has the
/// word.
#[derive(Clone, Copy, Debug, PartialEq, Eq)]
pub enum DimacsFault {
    /// No header or a wrong one, a word that is no number, or an end within a clause.
    Syntax { line: usize },
    /// A literal over the variables.
    Range { line: usize },
    /// The first number of a clause too many, or an end with too few.
    Count { line: usize },
}

impl DimacsFault {
    /// The line that is refused, counted from 1.
    pub fn line(&self) -> usize
        ensures { result ≡ fault_line self.now }
    {
        match *self {
            DimacsFault::Syntax { line } => line,
            DimacsFault::Range { line } => line,
            DimacsFault::Count { line } => line,
        }
    }
}

impl fmt::Display for DimacsFault {
    ghost output = { λ fault. Some (fault_words fault) };

    fn fmt<W: fmt::Write>(&self, f: &mut fmt::Formatter<W>) -> fmt::Result {
        match self {
            DimacsFault::Syntax { .. } => f.write_str("syntax"),
            DimacsFault::Range { .. } => f.write_str("range"),
            DimacsFault::Count { .. } => f.write_str("count"),
        }
    }
}
