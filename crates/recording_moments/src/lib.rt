//! The changes of a recording by moment: which variables change in it. Start at `ChangesByMoment`.
//!
//! `counts` counts the changes of each moment, `places` puts the variables into the parts that this makes, and
//! `by_moment` keeps them.
#![tactic(auto)]

mod by_moment;
mod counts;
mod places;

pub use by_moment::ChangesByMoment;
