//! The nodes of a cone: what is kept of its places, and their bits under fillings, 256 fillings at once.
//!
//! Start at specs/Nodes.antt and specs/Traced.antt, then at `Cone`.
#![tactic(auto)]

mod choice;
mod cone;
mod cone_lanes;
mod evaluate;
mod lane_bits;
mod lanes;
mod laws;
mod listed;
mod node;
mod positions;
mod values;

pub use choice::table_lanes;
pub use cone::Cone;
pub use cone_lanes::ConeLanes;
pub use lane_bits::LaneBits;
pub use laws::{
    bits_make_fillings, fillings_make_bits, numbers_make_fillings, sources_are_of_the_cone,
    whole_cones_are_cones,
};
pub use node::{Node, NodeBody};
pub use positions::Positions;
pub use values::Values;
pub use wave_proved::{Verdict, Wave};
