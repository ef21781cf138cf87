//! What searches that learn clauses are made of: literals, the watches of clauses, and what the analysis of a conflict
//! met. Each contract says exactly what its call gives and leaves, but for what an addition to `Watches` leaves that ran
//! out of memory. A place past the end of a list is no fault: a read there gives what stands for nothing, and a write
//! there leaves the list as it is.
//!
//! Start at `item_at` and `set_item`, then at `Literal`, `Watches` and `Seen`.
#![tactic(auto)]

mod literal;
mod reads;
mod seen;
mod watches;

pub use literal::{Literal, Variable};
pub use reads::{item_at, narrow, set_item};
pub use seen::Seen;
pub use watches::{Watch, Watches};
