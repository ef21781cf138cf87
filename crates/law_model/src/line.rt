//! The lines of a waveform: one for each Line place, with what is known of it and why.

use design_circuit::{Filling, Place};
use sat_proof::Log;

/// What a line says of its place.
#[derive(Debug, Drop)]
pub enum Body {
    /// Every filling of the sources, of which there are few, gives the bit.
    Enumerated(bool),
    /// The log refutes the query of the place, which denies the bit.
    Refuted(bool, Log),
    /// The world of the first filling gives 0, that of the second 1.
    Pair(Filling, Filling),
    /// The search ended with this log.
    Undecided(Log),
}

/// A place whose class is Line, and why it is written as it is.
#[derive(Debug, Drop)]
pub struct Line {
    pub place: Place,
    pub body: Body,
}
