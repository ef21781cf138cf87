//! How far places are decided.

/// How a walk decides a Line place: by all fillings of its sources where it has few of them, else by a search that may
/// learn a given number of clauses.
#[derive(Clone, Copy, Debug)]
pub struct Limits {
    /// How many clauses the log of an undecided place has: 1 to 100,000.
    pub conflicts: u32,
    /// How many sources a place has at most of which all fillings are tried: 12 to 16.
    pub enumerated: u32,
}
