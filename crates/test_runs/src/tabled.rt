//! The table of a case in which each call fails in turn.
//!
//! Beneath `> calls` stands a line for each run: the number of the call that fails, the status, the first line that is
//! printed, and after commas the files that the run left whole.

use crate::given::{Case, OUTPUTS, text_of};
use crate::setting::Run;
use std::alloc::AllocError;
use std::fmt::Write;
use test_cases::{Lines, Part, Report};

/// Puts the line of a run behind those before it.
pub fn put_row(rows: &mut String, call: u64, whole: &Run, run: &Run) -> Result<(), AllocError> {
    put_head(rows, call, run)?;
    for name in OUTPUTS {
        put_whole(rows, whole, run, name)?;
    }
    rows.push('\n')
}

fn put_head(rows: &mut String, call: u64, run: &Run) -> Result<(), AllocError> {
    let printed = text_of(run.printed());
    let first = printed.split_once('\n').unwrap_or((printed, "")).0;
    write!(rows, "{call} {} {first}", run.status())?;
    Ok(())
}

/// Puts the name of a file that the run left whole.
fn put_whole(rows: &mut String, whole: &Run, run: &Run, name: &str) -> Result<(), AllocError> {
    if !is_whole(whole, run, name) {
        return Ok(());
    }
    rows.push_str(", whole ")?;
    rows.push_str(name)
}

/// The run left the file as the whole run wrote it.
fn is_whole(whole: &Run, run: &Run, name: &str) -> bool {
    let ended = whole.left(name);
    !is_same(whole.met(name), ended) && is_same(run.left(name), ended)
}

/// Both are absent, or have the same bytes.
pub fn is_same(one: Option<&[u8]>, other: Option<&[u8]>) -> bool {
    match (one, other) {
        (Some(one), Some(other)) => *one == *other,
        (None, None) => true,
        _ => false,
    }
}

/// Compares the lines of all runs with the table of the case, where it has one.
pub fn compare_rows(report: &mut Report, case: Case<'_>, rows: &str) -> Result<(), AllocError> {
    let Some(part) = case.want("calls") else {
        return Ok(());
    };
    let content = part.content(case.alloc)?;
    compare_lines(
        report,
        part,
        content.as_slice(),
        Lines::new(rows.as_bytes()),
    )
}

fn compare_lines(
    report: &mut Report,
    part: Part<'_>,
    content: &[u8],
    rows: Lines<'_>,
) -> Result<(), AllocError> {
    let mut rows = rows;
    for want in Lines::new(content) {
        let line = part.line.saturating_add(want.number);
        report.compare(line, want.text, next_of(&mut rows))?;
    }
    compare_end(report, part, rows)
}

/// The text of the next line, where there is one.
pub fn next_of<'a>(lines: &mut Lines<'a>) -> &'a [u8] {
    match lines.next() {
        Some(line) => line.text,
        None => b"",
    }
}

/// Compares what is left of the lines of a part with nothing.
pub fn compare_end(
    report: &mut Report,
    part: Part<'_>,
    lines: Lines<'_>,
) -> Result<(), AllocError> {
    let mut lines = lines;
    match lines.next() {
        Some(more) => report.compare(part.line, b"", more.text),
        None => Ok(()),
    }
}
