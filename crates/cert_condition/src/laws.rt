//! The laws of conditions. None of these functions does anything: what each ensures is a law, proved here once.

ghost use Rattle.cert_condition.specs.Laws as spec;
ghost use Rattle.cert_condition.specs.View as held;

/// A list is a condition exactly where its turn query has no model: the models of the turn query are the choices of
/// bits that obey the list, the carried places and the rules, and give the place the other value.
pub fn conditions_are_refuted()
    ensures models { spec.ChoicesAreModels }
    ensures choices { spec.ModelsAreChoices }
    ensures refuted { spec.TurnLaw }
{}

/// The certain boundary places of a certain place of a sound waveform are a condition of it, and each turn leaves one.
pub fn turns_keep_conditions()
    ensures all { spec.WholeListLaw }
    ensures turns { spec.TurnsLaw }
{}

/// What a condition lists, under way or finished, is a condition of its place.
pub fn lists_are_conditions()
    ensures { held.HeldLaw }
{}

/// A condition of a place of a wave stays one, whatever is written next.
pub fn conditions_stay_right()
    ensures { held.StayLaw }
{}
