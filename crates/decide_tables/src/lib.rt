//! Tables of the nodes of a graph over a list of at most 16 sources: the bit of each node under the filling of every
//! number, 256 fillings a block. They are kept from question to question, so each node of the graph is evaluated once
//! for a list.
//!
//! A question walks down to nodes that have tables, by a heap, makes what is missing from there up, and looks for a
//! number whose filling gives the node another bit than the empty one: there is one, or every filling gives it that
//! bit. What isn't used for long makes room. Nothing promises that the node gets a table. Start at specs/Tables.antt,
//! then at
//! `SourceTables`.
#![tactic(auto)]

mod evaluate;
mod fillings;
mod kept;
mod laws;
mod missing;
mod other;
mod tables;

pub use laws::tables_stay;
pub use other::{Compared, Other};
pub use tables::SourceTables;
