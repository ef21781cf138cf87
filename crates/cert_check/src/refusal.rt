//! Why a certificate is refused.

ghost use Rattle.std.specs.Prelude.{Some};
ghost use Rattle.cert_check.specs.Words.{fault_text};

use design_circuit::Place;
use std::fmt;
use wave_proved::{AdvanceErr, Optimistic};

/// Why a certificate is refused. Lines are those of its text, from 1. Its `Display` has the words, without the place
/// that lacks its line.
#[derive(Clone, Copy, Debug, PartialEq, Eq)]
pub enum CertFault {
    /// This line is the first that is none of the grammar.
    Syntax { line: usize },
    /// A number of the second line isn't that of this run.
    Header { line: usize },
    /// A Line place, while the next line names a later place, or there is none.
    Missing { place: Place },
    /// Any other line that doesn't name the place that is due.
    Stray { line: usize },
    /// The log doesn't hold, or names a variable that the query hasn't, or the place's sources are enumerated.
    BadLog { line: usize },
    /// The fillings are none, or don't give 0 and 1.
    BadPair { line: usize },
    /// The place has more sources than are enumerated, or some filling gives the other bit.
    BadEnum { line: usize },
    /// A turn is due, and this line isn't the turn line of its place, or what it says doesn't hold; or it is the last
    /// one.
    BadTurn { line: usize },
}

/// Why a text isn't read.
#[derive(Clone, Copy, Debug, PartialEq, Eq)]
pub enum CertErr {
    /// It is no certificate.
    Refused(CertFault),
    /// There was no memory.
    Memory,
}

/// Why the check of a certificate ends early.
#[derive(Debug, Drop)]
pub enum CheckErr {
    /// The certificate isn't one of this run.
    Refused(CertFault),
    /// A place that the history knows is found otherwise.
    Optimistic(Optimistic),
    /// There was no memory.
    Memory,
}

impl From<AdvanceErr> for CheckErr {
    ghost use Rattle.std.specs.Prelude.{◌≡◌};
    ghost use Rattle.cert_check.specs.Words.{stopped_by};

    ghost from_gives = { λ err refusal. refusal ≡ stopped_by err };

    fn from(err: AdvanceErr) -> Self {
        match err {
            AdvanceErr::Optimistic(objection) => CheckErr::Optimistic(objection),
            AdvanceErr::Memory => CheckErr::Memory,
        }
    }
}

impl fmt::Display for CertFault {
    ghost output = { λ fault. Some (fault_text fault) };

    fn fmt<W: fmt::Write>(&self, f: &mut fmt::Formatter<W>) -> fmt::Result {
        match self {
            CertFault::Syntax { line } => write!(f, "certificate line {line}: syntax"),
            CertFault::Header { line } => write!(f, "certificate line {line}: header"),
            CertFault::Missing { .. } => f.write_str("certificate lacks"),
            CertFault::Stray { line } => write!(f, "certificate line {line}: stray"),
            CertFault::BadLog { line } => write!(f, "certificate line {line}: log"),
            CertFault::BadPair { line } => write!(f, "certificate line {line}: pair"),
            CertFault::BadEnum { line } => write!(f, "certificate line {line}: enumeration"),
            CertFault::BadTurn { line } => write!(f, "certificate line {line}: turn"),
        }
    }
}
