//! The order of a design's nets, in which each net stands behind its arguments, or a loop of nets where there is none.
//!
//! The least net whose arguments are all listed comes next (Kahn's method with an ordered set): n log n for n nets with
//! few pins each. Start at `order`.
#![tactic(auto)]

mod arguments;
mod listing;
mod progress;
mod readers;
mod refusal;
mod walk;

pub use listing::order;
pub use refusal::OrderErr;
