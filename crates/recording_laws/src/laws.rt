//! The law of recordings, the contract of a function that does nothing.

ghost use Rattle.recording_laws.specs.Laws as spec;

/// A recording that a text says has the times that the text says, and each bit of each variable that it lists has in
/// each moment the value of the last change of its code in the moment or before it.
pub fn recordings_are_said()
    ensures { spec.RecordingsAreSaid }
{}
