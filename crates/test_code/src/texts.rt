//! What code texts come to, in words.

use crate::case::compare;
use crate::events::lines_of;
use crate::scoped::Scoped;
use base_lists::Memory;
use replay_code::{CodeErr, CodeFault};
use std::alloc::{AllocError, Global};
use test_cases::{Part, Report, text_cases};

/// The forces that a text says, as lines, or its refusal as one.
pub fn read_lines(alloc: Global, scoped: &Scoped<'_>, text: &[u8]) -> Result<Vec<u8>, Memory> {
    match scoped.read(alloc, text) {
        Ok(forces) => lines_of(alloc, scoped, &forces),
        Err(CodeErr::Refused(fault)) => Ok(line_of(alloc, &fault)?),
        Err(CodeErr::Memory) => Err(Memory),
    }
}

fn line_of(alloc: Global, fault: &CodeFault) -> Result<Vec<u8>, AllocError> {
    let mut line = words_of(alloc, fault)?;
    line.push('\n')?;
    Ok(line.into_bytes())
}

/// The byte of a refusal, and its words.
fn words_of(alloc: Global, fault: &CodeFault) -> Result<String, AllocError> {
    format!(in alloc; "{} {fault}", fault.at())
}

/// `ok`, or the byte of the refusal and its words.
pub fn verdict_of(alloc: Global, scoped: &Scoped<'_>, text: &[u8]) -> Result<String, Memory> {
    match scoped.read(alloc, text) {
        Ok(_) => Ok(String::from_str(alloc, "ok")?),
        Err(CodeErr::Refused(fault)) => Ok(words_of(alloc, &fault)?),
        Err(CodeErr::Memory) => Err(Memory),
    }
}

/// Compares each text of a part with what stands beneath it.
pub fn compare_texts(
    alloc: Global,
    report: &mut Report,
    scoped: &Scoped<'_>,
    part: Part<'_>,
) -> Result<(), Memory> {
    let content = part.content(alloc)?;
    for case in text_cases(content.as_slice()) {
        let case = case.read(alloc)?;
        let got = verdict_of(alloc, scoped, case.input.as_slice())?;
        let line = part.line.saturating_add(case.line);
        compare(report, line, case.want.as_slice(), got.as_bytes())?;
    }
    Ok(())
}
