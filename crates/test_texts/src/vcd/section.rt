//! A case: a recording, and what it must say.

use crate::vcd::fault::{read, words_of};
use crate::vcd::listing::{changes, moments, names, scopes, timescale, values};
use std::alloc::{AllocError, Global};
use std::rt::Files;
use std::{fs, io, str};
use test_cases::{Part, PartKind, Report, Section};

/// Goes over the parts: `< NAME` and a text, or `read NAME` of a file, then `> KIND` and what must come.
pub fn run_section<R: Files + AllocGlobal>(
    rt: &R,
    report: &mut Report,
    section: Section<'_>,
) -> io::Result<()> {
    let mut text = Vec::new(rt.alloc());
    for part in section.parts() {
        match part.kind {
            PartKind::Words => text = file_of(rt, part)?,
            PartKind::File => text = part.content(rt.alloc())?,
            PartKind::Want => compare(rt.alloc(), report, part, text.as_slice())?,
        }
    }
    report.end_case();
    Ok(())
}

/// The content of the file that a line `read NAME` names.
fn file_of<R: Files + AllocGlobal>(rt: &R, part: Part<'_>) -> io::Result<Vec<u8>> {
    let name = match part.head.strip_prefix(b"read ") {
        Some(name) => str::from_utf8(name).unwrap_or(""),
        None => "",
    };
    fs::read(rt, name)
}

fn compare(
    alloc: Global,
    report: &mut Report,
    part: Part<'_>,
    text: &[u8],
) -> Result<(), AllocError> {
    let got = said(alloc, part.head, text)?;
    let want = part.content(alloc)?;
    report.compare(part.line.saturating_add(1), want.as_slice(), got.as_slice())
}

/// What the text says of this kind, or its refusal.
fn said(alloc: Global, kind: &[u8], text: &[u8]) -> Result<Vec<u8>, AllocError> {
    let recording = match read(alloc, text) {
        Ok(recording) => recording,
        Err(refusal) => {
            let words = words_of(alloc, refusal, 0)?;
            return Vec::from_slice(alloc, words.as_bytes());
        }
    };
    if let Some(numbers) = kind.strip_prefix(b"moments ") {
        return moments(alloc, &recording, numbers);
    }
    match kind {
        b"values" => values(alloc, &recording),
        b"names" => names(alloc, &recording),
        b"scopes" => scopes(alloc, &recording),
        b"timescale" => timescale(alloc, &recording),
        b"changes" => changes(alloc, &recording),
        _ => Vec::from_slice(alloc, b"no such kind"),
    }
}
