//! Why a variable has its bit.

use sat_watches::Variable;

/// A decision or a clause of one literal; an implication of a gate, by its place; or a learned clause, by number.
#[derive(Clone, Copy, Debug)]
pub(crate) enum Reason {
    Decision,
    Implication { gate: Variable, place: u32 },
    Clause(u32),
}
