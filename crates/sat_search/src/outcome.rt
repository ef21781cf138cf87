//! What the search answers.

use sat_proof::{Exhausted, Model, Refuted};

/// A model, a log that refutes, or a fresh log of as many clauses as the limit says.
#[must_use]
pub enum Outcome {
    Model(Model),
    Refuted(Refuted),
    Limit(Exhausted),
}
