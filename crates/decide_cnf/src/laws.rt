//! The law of cones that ask the same. This function does nothing: what it ensures is a law, proved here once.

ghost use Rattle.decide_cnf.specs.Same.{SameLaw};

/// Places whose cones have the same bodies have the same queries.
pub fn same_cones_ask_the_same()
    ensures { SameLaw }
{}
