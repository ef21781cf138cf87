//! Which source is to blame for each unknown bit: one that, under a filling that is named too, flips the bit by itself.
//!
//! Start at specs/ToBlame.antt, then at `blame_of`.
#![tactic(auto)]

mod bits;
mod blame;
mod causes;
mod halves;
mod join;
mod roots;
mod table;

pub use bits::Blamed;
pub use blame::{Blame, blame_of};
