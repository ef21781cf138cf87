//! The classes of places: how a place gets what a waveform has for it.

use design_circuit::Place;

/// The class of a place.
#[derive(Clone, Copy, Debug, PartialEq, Eq)]
pub enum Class {
    /// There is no place: every one is written.
    Done,
    /// The rule gives the bit for every assignment.
    Local(bool),
    /// The rule gives x for every assignment.
    Free,
    /// In every world the place has the bit of that place, or its complement where this is true.
    Carried(Place, bool),
    /// Any other: a line says what the place has.
    Line,
}

/// The class of a place that there is. Definitions speak of places by their numbers in place order.
#[derive(Clone, Copy, Debug, PartialEq, Eq)]
pub enum ClassByNumber {
    Local(bool),
    Free,
    Carried(usize, bool),
    Line,
}
