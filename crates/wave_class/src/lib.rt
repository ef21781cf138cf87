//! The class of a place, from what is known of the places before it: how a waveform gets what it has there. No memory.
//!
//! Mostly a place has the class of its net's place a step before: its arguments, which the wiring names, are as they
//! were there. Where they are all certain it has what its driver makes of them. Else all assignments of those that
//! aren't are tried, at most 2^13. A copy needs none, and mostly the first and the last show that a place is neither
//! local nor free. Start at `class_at`.
#![tactic(auto)]

mod arguments;
mod asked;
mod assigned;
mod classify;
mod earlier;
mod ends;
mod every;
mod keeps;
mod moved;
mod quick;
mod ruled;
mod steady;
mod test;
mod tried;

pub use arguments::{ArgumentsByNumber, argument_places, uncertain_places};
pub use asked::Asked;
pub use assigned::{Assigned, Numbered, rule_value};
pub use classify::{class_at, kept_class};
pub use earlier::Earlier;
pub use keeps::{cell_chooses, keeps_here, place_before};
pub use test::Test;
