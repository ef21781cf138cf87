//! Formulas and logs as texts in DIMACS: which texts stand for which, the writers, and the readers with their first
//! fault.
//!
//! A text is cut into lines, these into words, and a machine takes word after word (specs/Machine.antt); each reader's
//! contract is an equation of its runs. That it says what the grammar says is proved once. Time and memory are linear
//! in the text. Start at specs/Grammar.antt, which says what a text stands for, at specs/Faults.antt, which says what
//! is refused, and at specs/Text.antt, which says what is written; then at `read_cnf`.
#![tactic(auto)]

mod fault;
mod header;
mod kind;
mod laws;
mod lines;
mod numbers;
mod parts;
mod progress;
mod read;
mod refusal;
mod words;
mod write;

pub use fault::DimacsFault;
pub use laws::{written_cnf_stands, written_log_stands};
pub use read::{read_cnf, read_log};
pub use refusal::DimacsErr;
pub use write::{write_cnf, write_log};
