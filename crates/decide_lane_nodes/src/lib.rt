//! Places by their bits in 256 fixed worlds: nodes for those that aren't carried, literals of these for all.
//!
//! Each lane has a filling, a fixed function of a place. A node has its place's bits in the worlds of these fillings,
//! and where they are kept the list of its sources; the first node has 0 in each lane. A literal is a node, as it is or
//! inverted: that of a place's root, or of a certain place the first node. Where the places before a place have
//! literals,
//! `make_node` makes its node by its table: the lanes from those of its arguments, the sources as their union, with the
//! place itself where its table has x, and the roots of its arguments, so that the node comes into a graph
//! (`decide_graph`) too. Start at specs/Given.antt, specs/Literal.antt and specs/Made.antt, then at `make_node`.
#![tactic(auto)]

mod fillings;
mod lists;
mod literal;
mod merge;
mod node;
mod nodes;
mod rows;
mod ruled;
mod sources;

pub use fillings::given;
pub use literal::{Covered, Literal, constant, literal_at};
pub use merge::union;
pub use node::{Made, make_node, put_node};
pub use nodes::Nodes;
pub use rows::LiteralRows;
pub use sources::any_unknown;
