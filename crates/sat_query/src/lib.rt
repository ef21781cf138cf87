//! Answers for formulas that come one after the other: a guess first, by a search that keeps its memory and the bits
//! that variables had last; where that finds nothing in as many conflicts as are allowed, or something wrong, the
//! search of `sat_search`. A clause that is learned here isn't made tight, which is most of the cost there, and a
//! conflict takes back only what it has to. The test of a model is linear in the formula, and that of a log one
//! propagation for each of its clauses. A log is tested over the clauses that it needs, and kept with these: the next
//! formula that has them all is refuted by it without a search and a test.
//!
//! Start at `Decider`. A `solver` has the `clauses` and the `trail`; it `propagate`s, takes decisions by `scores`, and
//! `analyze`s conflicts; `search` puts these together. Nothing of that is promised but that it ends and stays in its lists (what
//! is past the end of one reads as nothing, and isn't written). The public modules test models and logs, also those
//! that a text states, and copy clauses.
#![tactic(auto)]

mod analyze;
mod clauses;
pub mod copies;
mod cores;
mod decide;
pub mod logs;
pub mod models;
mod needed;
mod origins;
mod propagate;
mod restarts;
mod scores;
mod search;
mod solver;
mod trail;

pub use decide::Decider;
pub use sat_search::Outcome;
