//! What becomes due in a step of a circuit: for each net the positions that read it, the positions that wait, and what
//! is added to them.
//!
//! Start at `Fans` and `Waiting`, then at `mark_readers`.
#![tactic(auto)]

mod fans;
mod marks;
mod waiting;

pub use fans::{Fans, push_net, register_readers};
pub use marks::{mark_all, mark_changes, mark_inputs, mark_net, mark_readers};
pub use waiting::Waiting;
