//! Certificates.

use base_lists::Items;
use law_model::{Line, TurnLine};

/// The form of a certificate.
#[derive(Clone, Copy, Debug, PartialEq, Eq)]
pub enum Form {
    /// Form 1: the lines of Line places alone.
    Lines,
    /// Form 2: behind the line of each certain place also the turns of its condition.
    Turns,
}

/// The numbers of a certificate's second line: the rounds of a moment, how many clauses the log of a licence has, the
/// moments, and the nets.
#[derive(Clone, Copy, Debug, PartialEq, Eq)]
pub struct Head {
    pub rounds: u32,
    pub conflicts: u32,
    pub moments: u32,
    pub nets: u32,
}

/// What stands between a certificate's second line and its last one.
#[derive(Debug, Drop)]
pub enum Entry {
    /// The line of a Line place.
    Line(Line),
    /// A turn of the place whose line stands before it.
    Turn(TurnLine),
}

/// A certificate: its form, its numbers, and the lines between, in the order of the text.
#[derive(Debug, Drop)]
pub struct Cert {
    pub form: Form,
    pub head: Head,
    pub entries: Items<Entry>,
}
