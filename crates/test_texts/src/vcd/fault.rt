//! The refusal of a text in words.

use recording_reader::{Recording, VcdErr, read_vcd};
use std::alloc::{AllocError, Global};

/// The declarations in front of each text of `changes.txt`.
const DECLARATIONS: &str =
    "$var wire 4 ! v $end $var real 64 R r $end $var realtime 64 T t $end $var event 1 E e $end \
     $var integer 32 I i $end $var wire 1 B w $end $var real 1 B x $end $var event 1 C y $end $var reg 1 C z $end \
     $enddefinitions $end ";

/// The recording, where the text isn't too long to be read.
pub fn read(alloc: Global, text: &[u8]) -> Result<Recording, VcdErr> {
    if text.len() > 268_435_456 {
        return Err(VcdErr::Memory);
    }
    read_vcd(alloc, text)
}

/// `ok`, or the byte of the refusal and its words.
pub fn fault_of(alloc: Global, text: &[u8]) -> Result<String, AllocError> {
    match read(alloc, text) {
        Ok(_) => String::from_str(alloc, "ok"),
        Err(refusal) => words_of(alloc, refusal, 0),
    }
}

/// The same of changes after the declarations of `changes.txt`: the byte is counted from the first of the changes.
pub fn fault_of_changes(alloc: Global, changes: &[u8]) -> Result<String, AllocError> {
    let mut text = Vec::from_slice(alloc, DECLARATIONS.as_bytes())?;
    text.extend_from_slice(changes)?;
    match read(alloc, text.as_slice()) {
        Ok(_) => String::from_str(alloc, "ok"),
        Err(refusal) => words_of(alloc, refusal, DECLARATIONS.len()),
    }
}

/// The byte of a refusal after the first bytes, and its words.
pub fn words_of(alloc: Global, refusal: VcdErr, first: usize) -> Result<String, AllocError> {
    match refusal.fault() {
        Some(fault) => format!(in alloc; "{} {fault}", fault.at().saturating_sub(first)),
        None => String::from_str(alloc, "memory"),
    }
}
