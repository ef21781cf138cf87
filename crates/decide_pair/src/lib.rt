//! Fillings that are tried at the next place of a wave: some of them for a pair, whose worlds give 0 and 1 there, or
//! all of those of few sources, 256 at once, which decide it.
//!
//! Start at specs/Pairs.antt, then at `try_in`, which a walk calls; `check_pair` and `try_lanes` look at fillings that
//! are given. Then specs/Blocks.antt, and `decide`.
#![tactic(auto)]

mod blocks;
mod check;
mod decision;
mod found;
mod lanes;
mod tries;

pub use blocks::{number_blocks, source_lanes};
pub use check::{BadPair, check_pair};
pub use decision::{check_bit, decide, has_few_sources};
pub use found::fewer;
pub use lanes::least_lane;
pub use tries::{other_lane, pair_of_lane, try_in, try_lanes};
