//! The replay of a design under a stimulus and forces, and the comparison of a recording with it.
//! Start at `replay` and `compare`.
#![tactic(auto)]

mod computed;
mod differ;
mod driven;
mod follower;
mod forced;
mod held;
mod marked;
mod marks;
mod moments;
mod recorded;
mod settled;
mod sides;
mod step;
mod steps;
mod sweep;
mod values;
mod watchers;

pub use differ::{Differ, DifferErr};
pub use forced::take_events;
pub use marked::mark_changes;
pub use marks::mark_events;
pub use moments::compare;
pub use steps::replay;
pub use values::is_same;
pub use watchers::bit_readers;
