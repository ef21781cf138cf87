//! The codes of a recording's variables, with their numbers, widths and kinds (IEEE 1364-2005, clause 18).
//! Start at `Codes`.
#![tactic(auto)]

mod codes;
mod columns;
mod slots;

pub use codes::{Codes, Found};
