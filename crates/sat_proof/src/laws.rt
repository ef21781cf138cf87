//! The law of fresh logs. The function does nothing: what it ensures is proved here once.

ghost use Rattle.sat_proof.specs.Laws.{FreshLogsFit};

/// A fresh log names only variables that its query's clauses name, since a literal of another variable isn't needed:
/// without it the clause still follows.
pub fn fresh_logs_fit()
    ensures { FreshLogsFit }
{}
