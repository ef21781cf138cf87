//! The bits of an expression, and what drives what. Start at `bits_of` and `drive`.
#![tactic(auto)]

mod driving;
mod expression;
mod lanes;
mod run;
mod runs;

pub use driving::{drive, feed};
pub use expression::{Role, bits_of, name_bits};
pub use run::Lane;
pub use runs::Runs;
