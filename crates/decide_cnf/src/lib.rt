//! The query of a cone as clauses, and what the answers of a search on it are worth.
//!
//! Start at specs/Query.antt, then at `clauses`; then at specs/Answers.antt.
#![tactic(auto)]

mod answers;
mod clause;
mod laws;
mod lists;
mod literals;
mod model;
mod query;
mod tables;

pub use answers::{conclude, give_up};
pub use laws::same_cones_ask_the_same;
pub use literals::{literals_of, turned, variables_of};
pub use model::model_filling;
pub use query::{clauses, node_clauses};
