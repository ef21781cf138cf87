//! What a place of a wave rests on: the place that it is carried from, or its essential arguments with its table over
//! them; and a graph of the places that aren't carried. Each of its nodes reads earlier ones, at the roots of what its
//! place rests on, so that a cone is found among kept nodes, without a class, a rule or a carried place.
//!
//! Where a place has the complement of its root, the table that reads it is kept with that bit turned: so a node of the
//! graph is a node of a cone, by other positions. Places that are reached and still to be looked at, of which the
//! greatest is taken out next, stand in a heap, in which most places stand once.
//!
//! Start at specs/Traced.antt, then at `trace_place`; at specs/Reached.antt, then at `Reached`; at specs/Graph.antt,
//! then at
//! `Graph`; specs/Bits.antt says what bits its nodes have under a filling.
#![tactic(auto)]

mod graph;
mod heap;
mod kept;
mod laws;
mod node_root;
mod noted;
mod picked;
mod reached;
mod table;
mod traced;
mod walk;

pub use graph::Graph;
pub use kept::KeptNode;
pub use laws::{graphs_begin, graphs_grow, graphs_stay, nodes_give_worlds};
pub use node_root::NodeRoot;
pub use reached::Reached;
pub use traced::{TracedBody, trace_place};
