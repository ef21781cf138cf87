//! The law of levels, the contract of a function that does nothing.

ghost use Rattle.elab_design.specs.Quiet.{LevelsAreOne};

/// A text has one table of levels.
pub fn levels_are_one()
    ensures { LevelsAreOne }
{}
