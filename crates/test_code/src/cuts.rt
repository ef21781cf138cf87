//! What a code text comes to where it is cut.

use crate::scoped::Scoped;
use crate::texts::verdict_of;
use base_lists::Memory;
use std::alloc::Global;
use std::fmt::Write;

/// A line for each run of cuts that come to the same.
pub fn cuts_of(alloc: Global, scoped: &Scoped<'_>, text: &[u8]) -> Result<String, Memory> {
    let mut lines = String::new(alloc);
    let mut first = 0;
    let mut verdict = verdict_of(alloc, scoped, b"")?;
    for cut in 1..text.len() + 1 {
        let next = verdict_of(alloc, scoped, &text[..cut])?;
        if next.as_str() != verdict.as_str() {
            put_run(&mut lines, first, cut - 1, verdict.as_str())?;
            first = cut;
            verdict = next;
        }
    }
    put_run(&mut lines, first, text.len(), verdict.as_str())?;
    Ok(lines)
}

fn put_run(lines: &mut String, first: usize, last: usize, verdict: &str) -> Result<(), Memory> {
    write!(lines, "{first}-{last}: {verdict}\n")?;
    Ok(())
}
