//! What a recording's text says of times and values, in the words of the standard (IEEE 1364-2005, clause 18), and the
//! law that the machine of recording_reader reads just this. Start at specs/Body.antt, then at specs/Moments.antt.
#![tactic(auto)]

mod laws;

pub use laws::recordings_are_said;
