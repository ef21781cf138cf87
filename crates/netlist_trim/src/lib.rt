//! Libraries trimmed: of a netlist text, the definitions that a top needs, each copied byte for byte. Start at `trim`,
//! and at specs/Trims.antt, which says what a text comes to.
//!
//! A text goes by these files: `reader.rt` (its tokens with their bytes), `definition.rt` (what it defines),
//! `library.rt` (the definitions found by name), `needed.rt` (what the top needs), `copies.rt` and `trimmed.rt` (what
//! is kept).
#![tactic(auto)]

mod copies;
mod definition;
mod fault;
mod kind;
mod laws;
mod library;
mod names;
mod needed;
mod number_set;
mod reader;
mod spelled;
mod trimmed;

pub use fault::{TrimErr, TrimFault};
pub use laws::texts_are_trimmed_one_way;
pub use library::Numbers;
pub use reader::Reader;
pub use spelled::Spelled;
pub use trimmed::trim;
