//! Where a replay knows what isn't so: places that it knows and that are otherwise, where that begins, and the rows of
//! primitives that made it.
//!
//! Start at specs/Listed.antt and Row.antt, then at `audit_of`.
#![tactic(auto)]

mod audit;
mod found;
mod groups;
mod laws;
mod rows;
mod suspects;

pub use audit::{Audit, audit_of};
pub use found::Found;
pub use groups::Group;
pub use laws::listed_by_test;
