//! The hold of a table worked by hand: what the function ensures, the definitions compute.

ghost use Rattle.design_cell.specs.WorkedHolds.{FlopHolds, LatchHolds, StatefulHolds};

/// A register with a set and a reset, a latch, and rows that match one state alone.
pub fn holds_by_hand()
    ensures register { FlopHolds }
    ensures latch { LatchHolds }
    ensures states { StatefulHolds }
{}
