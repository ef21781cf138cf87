//! The wiring of a design: for each position of its order what stands there and what it reads, in flat tables.
//!
//! A table of kinds and one of pins, in reading order, stand for nets, drivers and lists of pins that point to one
//! another. Start at `Wiring`.
#![tactic(auto)]

mod pins;
mod wiring;

pub use wiring::{Kind, Wiring};
