//! What a command delivers, each with the line that reported that it couldn't be.

ghost use Rattle.std.specs.Prelude.{◌≡◌, IfOk, string_bytes};
ghost use Rattle.base_run.specs.Lines.{report_name, write_line};
ghost use Rattle.base_run.specs.Names.{text_of_name};

use crate::file_name::FileName;
use base_lists::Memory;
use std::alloc::{AllocError, Global};

/// A file to be written.
#[derive(Drop)]
pub struct Output<'a> {
    pub name: FileName<'a>,
    pub bytes: Vec<u8>,
    pub line: Vec<u8>,
    ghost ready: { line.items ≡ write_line (text_of_name name) },
}

/// What is to be printed.
#[derive(Drop)]
pub struct Report {
    pub bytes: Vec<u8>,
    pub line: Vec<u8>,
    ghost ready: { line.items ≡ write_line report_name },
}

impl<'a> Output<'a> {
    /// A file to be written whose name is one of the words, with its line.
    pub fn new(alloc: Global, name: &'a str, bytes: Vec<u8>) -> Result<Output<'a>, Memory>
        ensures name { IfOk result (λ o. text_of_name o.name ≡ name.now) }
        ensures bytes { IfOk result (λ o. o.bytes ≡ bytes) }
    {
        let line = write_line_of(alloc, name.as_bytes())?;
        Ok(Output {
            name: FileName::Word(name),
            bytes,
            line,
        })
    }

    /// A file to be written whose name is made, with its line.
    pub fn named(alloc: Global, name: String, bytes: Vec<u8>) -> Result<Output<'a>, Memory>
        ensures name { IfOk result (λ o. text_of_name o.name ≡ string_bytes name) }
        ensures bytes { IfOk result (λ o. o.bytes ≡ bytes) }
    {
        let line = write_line_of(alloc, name.as_bytes())?;
        Ok(Output {
            name: FileName::Made(name),
            bytes,
            line,
        })
    }
}

impl Report {
    /// What is to be printed, with its line.
    pub fn new(alloc: Global, bytes: Vec<u8>) -> Result<Report, Memory>
        ensures { IfOk result (λ r. r.bytes ≡ bytes) }
    {
        let line = write_line_of(alloc, b"report")?;
        Ok(Report { bytes, line })
    }
}

/// The line that reported that the output of this name couldn't be written.
fn write_line_of(alloc: Global, name: &[u8]) -> Result<Vec<u8>, AllocError>
    ensures { IfOk result (λ line. line.items ≡ write_line name.now) }
{
    let mut line = Vec::new(alloc);
    line.extend_from_slice(b"refused: cannot write ")?;
    line.extend_from_slice(name)?;
    line.push(b'\n')?;
    Ok(line)
}
