//! The law of equal nodes. This function does nothing: what it ensures is a law, proved here once.

ghost use Rattle.decide_lanes.specs.Equal.{EqualLaw};

/// In the world of every filling the places of two equal nodes of a graph have the same bit.
pub fn equal_nodes_agree()
    ensures { EqualLaw }
{}
