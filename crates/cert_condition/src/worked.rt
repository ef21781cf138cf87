//! Conditions worked by hand on two made designs.

ghost use Rattle.cert_condition.specs.WorkedConditions as worked;

/// A condition that needs its one boundary place, and one that needs none.
pub fn conditions_by_hand()
    ensures needed { worked.NeededParts }
    ensures dropped { worked.DroppedParts }
    ensures needs { worked.NeededNeeds }
    ensures needed_holds { worked.NeededHolds }
    ensures dropped_holds { worked.DroppedHolds }
{}
