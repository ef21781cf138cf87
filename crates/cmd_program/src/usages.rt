//! The usage of a command, as `clap` puts it.

use crate::commands::{NAMES, Name};
use crate::names::{command_in, form_of};
use base_line::usage_of_line;
use std::alloc::{AllocError, Global};

/// The usage of the command that the words begin with, and of every command where they begin with none: for people to
/// read, a line a command. Its words are clap's own, and nothing is promised of them.
pub fn usage_of(alloc: Global, words: &[String]) -> Result<String, AllocError> {
    match command_in(words) {
        Some((name, _)) => put_usages(alloc, &[name]),
        None => put_usages(alloc, &NAMES),
    }
}

fn put_usages(alloc: Global, names: &[Name]) -> Result<String, AllocError> {
    let mut text = String::new(alloc);
    for name in names {
        put_usage(alloc, &mut text, *name)?;
    }
    Ok(text)
}

fn put_usage(alloc: Global, text: &mut String, name: Name) -> Result<(), AllocError> {
    let form = form_of(name);
    let mut program = String::from_str(alloc, "xrepair ")?;
    program.push_str(form.word)?;
    let usage = usage_of_line(alloc, program.as_str(), form.options, form.files)?;
    text.push_str(usage.as_str())
}
