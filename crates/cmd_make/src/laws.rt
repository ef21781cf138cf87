//! The law of made recordings. This function does nothing: what it ensures is a law, proved here once.

ghost use Rattle.cmd_make.specs.Laws as spec;

/// A design that fits has one made recording for a number and a number of gates.
pub fn recordings_are_one()
    ensures { spec.RecordingsAreOne }
{}
