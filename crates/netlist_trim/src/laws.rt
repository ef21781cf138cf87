//! Laws of the definitions.

ghost use Rattle.netlist_trim.specs.Trims.{TrimsComeToOne};

/// A text with a top comes to one outcome.
pub fn texts_are_trimmed_one_way()
    ensures { TrimsComeToOne }
{}
