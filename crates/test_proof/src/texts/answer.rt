//! What a text comes to, in words.

use base_lists::{Memory, put};
use sat_dimacs::{DimacsErr, DimacsFault, read_cnf, read_log, write_cnf, write_log};
use std::alloc::{AllocError, Global};

/// How many variables the logs are over.
const VARS: u32 = 2;

/// The text that is written of the formula, which must be read again, or the refusal.
pub(crate) fn formula_words(alloc: Global, text: &[u8]) -> Result<Vec<u8>, Memory> {
    match rewritten(alloc, text) {
        Ok(written) => match rewritten(alloc, written.as_slice()) {
            Ok(again) if again == written => in_one_line(alloc, b"", written.as_slice()),
            _ => Ok(Vec::from_slice(alloc, b"written otherwise")?),
        },
        Err(DimacsErr::Refused(fault)) => Ok(fault_words(alloc, &fault)?),
        Err(DimacsErr::Memory) => Err(Memory),
    }
}

/// The text that is written of the formula of a text.
pub(crate) fn rewritten(alloc: Global, text: &[u8]) -> Result<Vec<u8>, DimacsErr> {
    let cnf = read_cnf(alloc, text)?;
    write_cnf(alloc, &cnf).map_err(|_| DimacsErr::Memory)
}

/// The same of a log.
pub(crate) fn log_words(alloc: Global, text: &[u8]) -> Result<Vec<u8>, Memory> {
    match log_rewritten(alloc, text) {
        Ok(written) => match log_rewritten(alloc, written.as_slice()) {
            Ok(again) if again == written => in_one_line(alloc, b"log: ", written.as_slice()),
            _ => Ok(Vec::from_slice(alloc, b"written otherwise")?),
        },
        Err(DimacsErr::Refused(fault)) => Ok(fault_words(alloc, &fault)?),
        Err(DimacsErr::Memory) => Err(Memory),
    }
}

fn log_rewritten(alloc: Global, text: &[u8]) -> Result<Vec<u8>, DimacsErr> {
    let log = read_log(alloc, text, VARS)?;
    write_log(alloc, &log).map_err(|_| DimacsErr::Memory)
}

/// The line of a refusal and its word.
pub(crate) fn fault_words(alloc: Global, fault: &DimacsFault) -> Result<Vec<u8>, AllocError> {
    let words = format!(in alloc; "line {}: {fault}", fault.line())?;
    Ok(words.into_bytes())
}

/// A title, and the lines of a text with ` /` after each.
fn in_one_line(alloc: Global, title: &[u8], text: &[u8]) -> Result<Vec<u8>, Memory> {
    let mut words = Vec::from_slice(alloc, title)?;
    for byte in text {
        if *byte == b'\n' {
            put(&mut words, b" / ")?;
        } else {
            words.push(*byte)?;
        }
    }
    if words.ends_with(b" ") {
        let _ = words.pop();
    }
    Ok(words)
}
