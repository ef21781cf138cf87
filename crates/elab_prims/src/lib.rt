//! The definitions of a text by name, its primitives as tables, and the clock pins of their instances. Start at
//! `Definitions` and `build_primitives`.
#![tactic(auto)]

mod built;
mod clocks;
mod definitions;
mod in_order;
mod names;
mod ports;

pub use built::build_primitives;
pub use clocks::{Clocks, live_count};
pub use definitions::{Definition, Definitions};
