//! Lanes: the worlds of 256 fixed fillings beside a wave, and the sources of its uncertain places, so that most unknown
//! places are decided without tracing a cone.
//!
//! Each place that is covered has a literal: a node, as it is or inverted (`decide_lane_nodes`). A certain place has
//! the first node, which is 0 in each lane. A carried place, as one that keeps its net's bit, has the literal of the
//! place that it is carried from, turned. Only a place whose class is Free or Line makes a node: its bits in the lanes,
//! by its table from those of its arguments, and the list of its sources, which is shared where an argument has the
//! same. Literals are kept for the last three steps or more, which is as far back as a place reads. The nodes are those
//! of a graph (`decide_graph`) too, as long as there is room for it. A walk looks at each Line place, and finds its
//! verdict where lanes differ, where an earlier place has an equal node (`equals`), or by the tables that nodes share
//! over at most 16 sources (`decide_tables`); or else it asks for its cone, which is found in the graph. Once a wave is
//! written, lanes that cover it from its first place on tell the root of each place, and the cone of that. Start at
//! specs/Lanes.antt, then at `Lanes`.
#![tactic(auto)]

mod counts;
mod equals;
mod graphs;
mod lanes;
mod laws;
mod pair;
mod roots;
mod shared;
mod shown;

pub use lanes::Lanes;
pub use laws::equal_nodes_agree;
pub use shown::Shown;
