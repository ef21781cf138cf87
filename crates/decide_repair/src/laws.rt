//! Laws of objections. This function does nothing: what it ensures are laws, proved here once.

ghost use Rattle.decide_repair.specs.Objections as spec;

/// What an objection tells is exact; two objections of one job and history, whose lines have no undecided body, tell
/// the same, whatever their limits are; and a finished wave is the one for every history.
pub fn objections_agree()
    ensures objects { spec.ObjectionsObject }
    ensures exact { spec.ObjectionsAreExact }
    ensures one { spec.ObjectionsAreOne }
    ensures waves { spec.WavesAreAlike }
{}
