//! The walk that repairs every place of a job: each is written with its justification, in place order.
//!
//! A place whose class says what it is takes no search. At any other the worlds of 256 fillings stand beside the wave
//! (`decide_lanes`): where two of them differ, they decide it; so do an earlier place that rests on the same by the
//! same table, by its log too (`earlier`), a guess that a test proves right (`guessed`), and tables over few sources.
//! Else its cone does, which the lanes have in their graph: by trying all fillings of few sources, by more random
//! fillings, or by a search on its query. Equal queries are searched once (`answers`).
//!
//! A walk goes on in pieces (`Walk`), so that a program can say how far it is. Start at `Walk`; `repair` is the sum of
//! its pieces. That what a walk objects to is exact, and one, are laws (`objections_agree`).
#![tactic(auto)]

mod aids;
mod answered;
mod answers;
mod copies;
mod earlier;
mod fillings;
mod finding;
mod guessed;
mod laws;
mod lines;
mod pooled;
mod refusal;
mod search;
mod walk;

pub use laws::objections_agree;
pub use refusal::RepairErr;
pub use walk::{Walk, repair};
