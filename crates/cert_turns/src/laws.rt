//! The laws of turns that are stated. None of these functions does anything: what each ensures is a law, proved here
//! once.

ghost use Rattle.cert_turns.specs.Laws as spec;

use cert_condition::conditions_stay_right;

/// What a condition keeps are turns of its place as texts state them: all, where none is due.
pub fn conditions_state_turns()
    ensures { spec.StatedLaw }
{}

/// Conditions of places of a wave stay theirs, whatever is written next.
pub fn conditions_stay()
    ensures { spec.StayLaw }
{
    conditions_stay_right();
}
