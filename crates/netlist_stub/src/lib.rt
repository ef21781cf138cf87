//! Stubs: of a text, the definitions of some modules, each with nothing but its name, its ports, and their directions
//! and ranges, so that a behavioural model can stand in a netlist. Start at `stub`, and at specs/Stubs.antt, which says
//! what a text comes to.
//!
//! What a text defines, with the tokens that declare, is netlist_stub_read's. It goes on by these files: `known.rt`
//! with
//! `heading.rt`, `sum.rt` and `listed.rt` (what they declare), `text.rt` and `stubs.rt` (what is written).
#![tactic(auto)]

mod fault;
mod heading;
mod known;
mod laws;
mod listed;
mod stubs;
mod sum;
mod text;

pub use fault::{StubErr, StubFault};
pub use laws::texts_have_stubs_one_way;
pub use stubs::stub;
