//! A search for a model of a formula that logs each clause it learns, by conflict-driven clause learning on the
//! propagation of
//! `sat_proof`: decisions up to a conflict, a clause from it that is made tight, and a restart. A round costs one propagation for each
//! decision and, for the clause, one for each literal that stays. Start at `solve`.
//!
//! `search` makes rounds; in a `round`, `decide` goes down to a conflict, and `learn` takes a clause from it: the hint if a test at
//! run time finds that it can be learnt, else the decisions, which always can. `tighten` leaves out what isn't needed.
//! The literals that stay are needed since closed sets spare them (specs/Learn.antt), and the clause is new since an
//! equal one would have propagated its last literal before (proofs/Learning.antt). What guides the search is in `hints`
//! (`phases`, `scores`, `analysis`), and no contract speaks of it.
#![tactic(auto)]

mod analysis;
mod decide;
mod found_conflict;
mod hints;
mod learn;
mod outcome;
mod phases;
mod reach;
mod reads;
mod round;
mod scores;
mod search;
mod tighten;

pub use outcome::Outcome;
pub use search::solve;
