//! The law of tables. This function does nothing: what it ensures is a law, proved here once.

ghost use Rattle.decide_tables.specs.Tables.{StayLaw};

/// Tables of a graph are tables of the graph with more nodes.
pub fn tables_stay()
    ensures { StayLaw }
{}
