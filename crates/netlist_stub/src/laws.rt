//! Laws of the definitions.

ghost use Rattle.netlist_stub.specs.Stubs.{StubsComeToOne};

/// A text with names and supplies comes to one outcome.
pub fn texts_have_stubs_one_way()
    ensures { StubsComeToOne }
{}
