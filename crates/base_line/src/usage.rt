//! The usage of a line, as `clap` puts it.

use crate::option::Opt;
use crate::told::command_of;
use std::alloc::{AllocError, Global};

/// The usage of a program, or of one of its commands: for people to read, a line. Its words are clap's own, and nothing
/// is promised of them.
pub fn usage_of_line<'a>(
    alloc: Global,
    program: &'a str,
    options: &'a [Opt<'a>],
    files: bool,
) -> Result<String, AllocError> {
    let mut command = command_of(alloc, program, options, files)?.bin_name(program)?;
    let mut text = command.render_usage()?;
    text.push('\n')?;
    Ok(text)
}
