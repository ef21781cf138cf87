//! The minimal choices of a table: which bits of a few arguments force a bit, none of which can be left out. These are
//! the prime implicants of the table and of its complement.
//!
//! Start at specs/Choices.antt, then at `minimal_choices`.
#![tactic(auto)]

mod choice;
mod choices;
mod halves;
mod joined;

pub use choice::Choice;
pub use choices::minimal_choices;
