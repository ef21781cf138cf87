//! The form of a command's line.

use base_line::Opt;

/// The form of a command's line: its word, its options, and whether FILEs stand after them.
#[derive(Clone, Copy, Debug)]
pub struct Form<'a> {
    pub word: &'a str,
    pub options: &'a [Opt<'a>],
    pub files: bool,
}
