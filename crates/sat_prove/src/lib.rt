//! Whether a log refutes a formula, both given by their texts in DIMACS, from whatever solver they come.
//!
//! Start at specs/Proof.antt, which says what the two texts come to, and at `check_proof`, which is linear in the texts
//! beside the check of the log's clauses.
#![tactic(auto)]

mod check;
mod fault;
mod line;
mod refusal;

pub use check::check_proof;
pub use fault::ProofFault;
pub use line::put_proof_line;
pub use refusal::ProofErr;
