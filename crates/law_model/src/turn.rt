//! Turns: what is found of a boundary place when its value is left out.

use design_circuit::Place;
use sat_proof::{Log, Model};

/// What a turn finds about the query of a list of boundary places without its own.
#[derive(Debug, Drop)]
pub enum Turn {
    /// The log refutes it: the place leaves the list.
    Dropped(Log),
    /// The model makes each clause true: the place stays.
    Needed(Model),
    /// The log is fresh for it, with as many clauses as the limit says: the place stays.
    Tried(Log),
}

/// A boundary place, and its turn.
#[derive(Debug, Drop)]
pub struct TurnLine {
    pub place: Place,
    pub turn: Turn,
}
