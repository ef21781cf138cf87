//! What a waveform has for a place.

use design_cell::Value;

/// What is known of a place, in every filling of the unknowns.
#[derive(Clone, Copy, Debug, PartialEq, Eq, Hash)]
pub enum Mark {
    /// Every filling gives the value.
    Certain,
    /// Two fillings give 0 and 1.
    Unknown,
    /// The search ended before it was known which.
    Undecided,
}

/// What a waveform has for a place. A waveform is a list of these, in place order.
#[derive(Clone, Copy, Debug, PartialEq, Eq, Hash)]
pub struct Written {
    /// What the waveform shows: where the mark isn't certain, what the replay shows.
    pub value: Value,
    pub mark: Mark,
}
