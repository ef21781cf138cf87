//! What is written of a finished wave for other solvers: its certificate, and for each line the query of its place and
//! its log in DIMACS.
//!
//! Start at specs/Export.antt, which says which files these are, then at `export_texts`.
#![tactic(auto)]

mod export;
mod lines;
mod names;
mod report;

pub use export::export_texts;
