//! Runs over each beginning of a file.
//!
//! What must come is said once for all of them, and no file changes. In what is printed LINE stands for the number of
//! the line in which the file ends, counted from 1; without `> printed` it isn't compared.

use crate::compared::{compare_kept, compare_status};
use crate::given::{Case, text_of};
use crate::program::Program;
use crate::setting::Run;
use std::alloc::{AllocError, Global};
use test_cases::Report;

/// A case, and the file of which it gets beginnings.
#[derive(Clone, Copy)]
struct Cut<'a> {
    case: Case<'a>,
    name: &'a str,
}

/// Runs a case once for each proper beginning of a file in the place of the file. `cut m.v 2` leaves out the beginnings
/// that lack fewer bytes than 2.
pub fn run_cuts<P: Program>(
    report: &mut Report,
    case: Case<'_>,
    whole: &mut Run,
    run: &mut Run,
    cut: &str,
) -> Result<(), AllocError> {
    let (name, least) = cut.split_once(' ').unwrap_or((cut, "1"));
    let least = least.parse::<usize>().unwrap_or(1).max(1);
    whole.begin(case)?;
    match whole.met(name) {
        Some(bytes) => run_fronts::<P>(report, Cut { case, name }, run, bytes, least),
        None => report.compare(case.title(), name.as_bytes(), b"no file"),
    }
}

/// Runs the case with each beginning of these bytes that lacks as many bytes.
fn run_fronts<P: Program>(
    report: &mut Report,
    cut: Cut<'_>,
    run: &mut Run,
    bytes: &[u8],
    least: usize,
) -> Result<(), AllocError> {
    let cuts = bytes.len().saturating_sub(least).saturating_add(1);
    let mut line = 1u64;
    for at in 0..cuts.min(bytes.len()) {
        run_front::<P>(report, cut, run, &bytes[..at], line)?;
        if bytes[at] == b'\n' {
            line = line.saturating_add(1);
        }
    }
    Ok(())
}

/// Runs the case with this beginning, which ends in this line.
fn run_front<P: Program>(
    report: &mut Report,
    cut: Cut<'_>,
    run: &mut Run,
    front: &[u8],
    line: u64,
) -> Result<(), AllocError> {
    run.begin(cut.case)?;
    run.put(cut.name, front)?;
    run.run_line::<P>(cut.case.alloc, cut.case.words())?;
    compare_cut(report, cut.case, run, line)
}

fn compare_cut(
    report: &mut Report,
    case: Case<'_>,
    run: &Run,
    line: u64,
) -> Result<(), AllocError> {
    compare_status(report, case, run.status())?;
    compare_printed(report, case, run.printed(), line)?;
    compare_kept(report, case, run)
}

fn compare_printed(
    report: &mut Report,
    case: Case<'_>,
    printed: &[u8],
    line: u64,
) -> Result<(), AllocError> {
    let Some(part) = case.want("printed") else {
        return Ok(());
    };
    let content = part.content(case.alloc)?;
    let first = part.line.saturating_add(1);
    compare_line(
        case.alloc,
        report,
        first,
        text_of(content.as_slice()),
        printed,
        line,
    )
}

/// Compares what was printed with a text in which LINE stands for this number.
fn compare_line(
    alloc: Global,
    report: &mut Report,
    first: usize,
    text: &str,
    printed: &[u8],
    line: u64,
) -> Result<(), AllocError> {
    let want = with_line(alloc, text, line)?;
    report.compare(first, want.as_bytes(), printed)
}

/// The text with this number in the place of LINE.
fn with_line(alloc: Global, text: &str, line: u64) -> Result<String, AllocError> {
    match text.split_once("LINE") {
        Some((front, rest)) => format!(in alloc; "{front}{line}{rest}"),
        None => String::from_str(alloc, text),
    }
}
