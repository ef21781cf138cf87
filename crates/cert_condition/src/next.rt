//! The query of the next turn, kept from turn to turn: unit clauses are added and taken away, and its other clauses
//! stay.

ghost use Rattle.std.specs.Prelude.{◌≤◌, nat_abs};
ghost use Rattle.std.specs.List.{All};

use sat_proof::{Clause, Cnf};

/// The clauses of a cone, the unit clauses of a list without one of its places, and the denial; and the unit clause of
/// that place.
#[derive(Drop)]
pub struct NextQuery {
    pub query: Cnf,
    pub cone: usize,
    pub away: Clause,

    pub ghost fits: { All (λ l. nat_abs l ≤ query.vars) away },
}
