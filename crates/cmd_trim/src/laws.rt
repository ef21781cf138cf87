//! Laws of the definitions.

ghost use Rattle.cmd_trim.specs.Done.{KeepsTexts};

/// Without stubs what is kept, and what a text is refused for, is of the text as it is.
pub fn texts_are_kept_without_stubs()
    ensures { KeepsTexts }
{}
