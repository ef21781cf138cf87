//! The laws of waves. None of these functions does anything: what each ensures is a law, proved here once.

ghost use Rattle.wave_proved.specs.Laws as spec;

/// There is one wave of a job without undecided places: its lines, its limit and the history that was handed in don't
/// change what it marks and finds. And lines say all: there is one wave of a list of lines.
pub fn waves_are_one()
    ensures one { spec.OneWave }
    ensures histories { spec.OneMarked }
    ensures lines { spec.OneByLines }
{}
