//! What elaboration stands on: why a tree has no design, the bits of a range, and the nets that are being made. Start
//! at `Nets`.
#![tactic(auto)]

mod fault;
mod nets;
mod ranges;

pub use fault::{ElabErr, ElabFault};
pub use nets::{MOST_NETS, NetDeclaration, Nets, part_of};
pub use ranges::{bit_at, offset, width_of, within};
