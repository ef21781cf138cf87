//! What a call answered.

use std::fmt;

/// Logs have lines from 1.
#[derive(Clone, Copy, PartialEq, Eq)]
pub(crate) enum Answer {
    Refuted,
    Fresh,
    Line(usize),
    Model,
    Limit,
    /// A log that refutes, of so many clauses and literals.
    Log { clauses: usize, literals: usize },
    Tally(Tally),
    /// So many answers of a family hold.
    Held(u64),
    /// A model that leaves a clause false, or has too few values.
    NoModel,
    /// A log that came back with other clauses.
    OtherLog,
    /// Numbers that are none, a clause without its 0, a variable over the formula's, a limit of 0.
    Unread,
    Memory,
}

/// How many formulas had each answer, of those that all assignments and the checker agree with.
#[derive(Clone, Copy, PartialEq, Eq)]
pub(crate) struct Tally {
    pub models: u64,
    pub refuted: u64,
    pub limits: u64,
}

impl Tally {
    pub fn new() -> Tally {
        Tally {
            models: 0,
            refuted: 0,
            limits: 0,
        }
    }

    pub fn sum(self) -> u64 {
        self.models
            .saturating_add(self.refuted)
            .saturating_add(self.limits)
    }
}

impl fmt::Display for Tally {
    fn fmt<W: fmt::Write>(&self, f: &mut fmt::Formatter<W>) -> fmt::Result {
        write!(
            f,
            "{} models, {} refuted, {} at the limit",
            self.models, self.refuted, self.limits
        )
    }
}

impl fmt::Display for Answer {
    fn fmt<W: fmt::Write>(&self, f: &mut fmt::Formatter<W>) -> fmt::Result {
        match self {
            Answer::Refuted => write!(f, "refuted"),
            Answer::Fresh => write!(f, "fresh"),
            Answer::Line(line) => write!(f, "line {line}"),
            Answer::Model => write!(f, "model"),
            Answer::Limit => write!(f, "limit"),
            Answer::Log { clauses, literals } => {
                write!(f, "clauses {clauses} literals {literals}")
            }
            Answer::Tally(tally) => write!(f, "{tally}"),
            Answer::Held(count) => write!(f, "{count}"),
            Answer::NoModel => write!(f, "no model"),
            Answer::OtherLog => write!(f, "another log"),
            Answer::Unread => write!(f, "unread"),
            Answer::Memory => write!(f, "memory"),
        }
    }
}
