//! What a netlist comes to, in words.

use crate::elab::printed::printed;
use design_circuit::Design;
use elab_design::elaborate;
use elab_nets::{ElabErr, ElabFault};
use netlist_reader::parse;
use std::alloc::{AllocError, Global};
use std::fmt::Write;

/// The module that is elaborated.
const TOP: &str = "top";

/// `ok`, or the byte or the name of the refusal and its words.
pub fn verdict_of(alloc: Global, text: &[u8]) -> Result<String, AllocError> {
    match elaborated(alloc, text) {
        Some(Ok(_)) => String::from_str(alloc, "ok"),
        Some(Err(refusal)) => refused(alloc, refusal),
        None => String::from_str(alloc, "no tree"),
    }
}

/// The design net by net, or the refusal.
pub fn design_of(alloc: Global, text: &[u8]) -> Result<String, AllocError> {
    match elaborated(alloc, text) {
        Some(Ok(design)) => printed(alloc, &design),
        Some(Err(refusal)) => refused(alloc, refusal),
        None => String::from_str(alloc, "no tree"),
    }
}

/// The design of a text, or why it has none; none where the text has no tree, or 2^32 primitives.
fn elaborated(alloc: Global, text: &[u8]) -> Option<Result<Design, ElabErr>> {
    let tree = parse(alloc, text).ok()?;
    if tree.primitives.as_slice().len() >= 1 << 32 {
        return None;
    }
    Some(elaborate(alloc, &tree, TOP))
}

fn refused(alloc: Global, refusal: ElabErr) -> Result<String, AllocError> {
    match refusal.fault() {
        Some(fault) => fault_words(alloc, &fault),
        None => String::from_str(alloc, "memory"),
    }
}

fn fault_words(alloc: Global, fault: &ElabFault) -> Result<String, AllocError> {
    match fault.at() {
        Some(at) => format!(in alloc; "{at} {fault}"),
        None => named_words(alloc, fault),
    }
}

fn named_words(alloc: Global, fault: &ElabFault) -> Result<String, AllocError> {
    let mut out = format!(in alloc; "{fault} ")?;
    for byte in fault.name().unwrap_or(b"") {
        out.push(*byte as char)?;
    }
    Ok(out)
}
