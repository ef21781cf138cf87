//! The laws of code, each the contract of a function that does nothing.

ghost use Rattle.replay_code.specs.Laws as spec;

/// A code text says forces by the grammar exactly where the machine that reads it comes to them.
pub fn grammar_is_read()
    ensures { spec.GrammarIsRead }
{}

/// The text that is written of forces says them: writing and then reading gives the forces again.
pub fn own_code_is_read()
    ensures { spec.OwnCodeIsRead }
{}
