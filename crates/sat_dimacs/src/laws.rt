//! Laws of DIMACS texts, each the contract of a function that does nothing.

ghost use Rattle.sat_dimacs.specs.Laws.{WrittenCnfStands, WrittenLogStands};

/// What `write_cnf` writes of a formula within the bounds of the format stands for it. Does nothing.
pub fn written_cnf_stands()
    ensures { WrittenCnfStands }
{}

/// What `write_log` writes of a log stands for it. Does nothing.
pub fn written_log_stands()
    ensures { WrittenLogStands }
{}
