//! Guesses about the nodes of a graph: bits of sources that give a node a bit, or a log that says that nothing does, by
//! a search on the graph itself (`decide_justify`), which reads a node when it gets a bit. No cone and no clauses are
//! made for it.
//!
//! That a guess is right isn't promised, so a caller tests it before it counts: promised are that a filling lists
//! sources of the graph, and that a log has no more clauses than conflicts were allowed, after which a search ends.
//! Start at `Guesser`;
//! `given_by` and `log_of` say of a cone what a guess says of the graph.
#![tactic(auto)]

mod codes;
mod guess;
mod guesser;
mod renamed;

pub use guess::{Guess, NodeBit};
pub use guesser::{Guesser, is_source};
pub use renamed::{given_by, log_of};
