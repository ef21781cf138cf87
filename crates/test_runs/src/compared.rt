//! What a run left, compared with what it must leave.

use crate::given::{Case, OUTPUTS};
use crate::setting::Run;
use crate::tabled::{compare_end, next_of};
use std::alloc::AllocError;
use test_cases::{Lines, Part, Report};

/// Compares all that a run left.
pub fn compare_run(report: &mut Report, case: Case<'_>, run: &Run) -> Result<(), AllocError> {
    compare_status(report, case, run.status())?;
    compare_printed(report, case, run)?;
    for name in OUTPUTS {
        compare_file(report, case, run, name)?;
    }
    Ok(())
}

/// Compares a status with that of the case.
pub fn compare_status(report: &mut Report, case: Case<'_>, status: u8) -> Result<(), AllocError> {
    let (line, want) = match case.want_status() {
        Some(part) => (part.line, part.head),
        None => (case.title(), b"> status".as_slice()),
    };
    let got = format!(in case.alloc; "status {status}")?;
    report.compare(line, want, got.as_bytes())
}

fn compare_printed(report: &mut Report, case: Case<'_>, run: &Run) -> Result<(), AllocError> {
    let printed = run.printed();
    match case.want("printed") {
        Some(part) => compare_part(report, case, part, printed),
        None if run.status() == 0 && has_report(case) => compare_bits(report, case, printed),
        None => report.compare(case.title(), b"", printed),
    }
}

/// A command that ends with status 0 prints a report; words that begin with an option name no command.
fn has_report(case: Case<'_>) -> bool {
    !case.words().starts_with("--")
}

/// Compares what a report has behind its first three lines.
fn compare_bits(report: &mut Report, case: Case<'_>, printed: &[u8]) -> Result<(), AllocError> {
    let Some(bits) = behind_three(printed) else {
        return report.compare(case.title(), b"a report", printed);
    };
    match case.want("bits") {
        Some(part) => compare_part(report, case, part, bits),
        None => report.compare(case.title(), b"", bits),
    }
}

/// What stands behind the first three lines.
fn behind_three(text: &[u8]) -> Option<&[u8]> {
    behind_line(behind_line(behind_line(text)?)?)
}

fn behind_line(text: &[u8]) -> Option<&[u8]> {
    let end = text.iter().position(|byte| *byte == b'\n')?;
    Some(&text[end + 1..])
}

/// Compares bytes with the lines beneath a part.
fn compare_part(
    report: &mut Report,
    case: Case<'_>,
    part: Part<'_>,
    got: &[u8],
) -> Result<(), AllocError> {
    let content = part.content(case.alloc)?;
    report.compare(part.line.saturating_add(1), content.as_slice(), got)
}

/// Compares a file with what the case says of it, or else with what must come of one of which it says nothing.
fn compare_file(
    report: &mut Report,
    case: Case<'_>,
    run: &Run,
    name: &str,
) -> Result<(), AllocError> {
    let got = run.left(name);
    if case.want_of("none ", name).is_some() {
        return compare_found(report, case.title(), name, None, got);
    }
    if let Some(part) = case.want(name) {
        return compare_content(report, case, part, name, got);
    }
    if let Some(part) = case.want_of("heads ", name) {
        return compare_heads(report, case, part, got.unwrap_or(b""));
    }
    compare_found(
        report,
        case.title(),
        name,
        want_unsaid(case, run, name),
        got,
    )
}

/// Compares a file with the lines beneath a part.
fn compare_content(
    report: &mut Report,
    case: Case<'_>,
    part: Part<'_>,
    name: &str,
    got: Option<&[u8]>,
) -> Result<(), AllocError> {
    let content = part.content(case.alloc)?;
    let line = part.line.saturating_add(1);
    compare_found(report, line, name, Some(content.as_slice()), got)
}

/// What must come of a file of which a case says nothing: what the run may choose, or else what was there before it.
fn want_unsaid<'a>(case: Case<'_>, run: &'a Run, name: &str) -> Option<&'a [u8]> {
    let got = run.left(name);
    if run.status() != 0 {
        return run.met(name);
    }
    if is_exported(case, name) && got.is_some() {
        return got;
    }
    if is_chosen(case, name) {
        return Some(got.unwrap_or(b""));
    }
    run.met(name)
}

/// The files that these commands write, with a part of their texts to choose, or all of them.
const CHOSEN: [(&str, &str); 4] = [
    ("repair ", "o.v"),
    ("repair ", "o.xc"),
    ("make ", "m.v"),
    ("make ", "r.vcd"),
];

/// The run writes the file, and may choose a part of its text.
fn is_chosen(case: Case<'_>, name: &str) -> bool {
    let words = case.words();
    for (command, file) in CHOSEN {
        if file == name && words.starts_with(command) {
            return true;
        }
    }
    false
}

/// An export may write the file.
fn is_exported(case: Case<'_>, name: &str) -> bool {
    case.words().starts_with("export ") && name.starts_with("p")
}

/// Compares each file with that before the run.
pub fn compare_kept(report: &mut Report, case: Case<'_>, run: &Run) -> Result<(), AllocError> {
    for name in OUTPUTS {
        compare_found(report, case.title(), name, run.met(name), run.left(name))?;
    }
    Ok(())
}

/// Compares a file, or that there is none.
pub fn compare_found(
    report: &mut Report,
    line: usize,
    name: &str,
    want: Option<&[u8]>,
    got: Option<&[u8]>,
) -> Result<(), AllocError> {
    match (want, got) {
        (Some(want), Some(got)) => report.compare(line, want, got),
        (Some(_), None) => report.compare(line, name.as_bytes(), b"no file"),
        (None, Some(_)) => report.compare(line, b"no file", name.as_bytes()),
        (None, None) => Ok(()),
    }
}

/// Compares lines of a file, each of which must begin with the line beneath the part of its number.
fn compare_heads(
    report: &mut Report,
    case: Case<'_>,
    part: Part<'_>,
    got: &[u8],
) -> Result<(), AllocError> {
    let content = part.content(case.alloc)?;
    compare_begun(report, part, content.as_slice(), Lines::new(got))
}

fn compare_begun(
    report: &mut Report,
    part: Part<'_>,
    content: &[u8],
    lines: Lines<'_>,
) -> Result<(), AllocError> {
    let mut lines = lines;
    for head in Lines::new(content) {
        let line = next_of(&mut lines);
        if !line.starts_with(head.text) {
            report.compare(part.line.saturating_add(head.number), head.text, line)?;
        }
    }
    compare_end(report, part, lines)
}
