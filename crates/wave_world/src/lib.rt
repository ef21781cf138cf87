//! The whole world of a filling over the written places of a wave: a byte a place.
//!
//! Start at specs/View.antt, then at `fill`.
#![tactic(auto)]

mod bits;
mod left;
mod world;

pub use world::{World, fill};
