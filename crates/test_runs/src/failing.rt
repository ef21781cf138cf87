//! Runs in each of which one call of the shelf fails.

use crate::compared::{compare_found, compare_kept, compare_run};
use crate::given::{Case, OUTPUTS, text_of};
use crate::program::Program;
use crate::setting::Run;
use crate::tabled::{compare_rows, is_same, put_row};
use std::alloc::AllocError;
use test_cases::Report;

/// More calls than a case makes.
const MOST_CALLS: u64 = 1000;

/// Runs a case without a fault, and then with the first call failing, the second, and so on, until none fails.
///
/// A run that fails says which name. Where that was read, or couldn't be written, every file is as it was; where it
/// couldn't be put, the files before it are whole, and it and those after it are as they were. A case may have a table
/// of all runs too.
pub fn run_failing<P: Program>(
    report: &mut Report,
    case: Case<'_>,
    whole: &mut Run,
    run: &mut Run,
) -> Result<(), AllocError> {
    run_with::<P>(case, whole, 0)?;
    compare_run(report, case, whole)?;
    let mut rows = String::new(case.alloc);
    run_faults::<P>(report, Faults { case, whole }, run, &mut rows)
}

/// A case in which calls fail, beside the run in which none does.
#[derive(Clone, Copy)]
struct Faults<'a> {
    case: Case<'a>,
    whole: &'a Run,
}

fn run_faults<P: Program>(
    report: &mut Report,
    faults: Faults<'_>,
    run: &mut Run,
    rows: &mut String,
) -> Result<(), AllocError> {
    for call in 1..MOST_CALLS {
        run_with::<P>(faults.case, run, call)?;
        put_row(rows, call, faults.whole, run)?;
        if run.status() == 0 {
            compare_rows(report, faults.case, rows.as_str())?;
            return compare_run(report, faults.case, run);
        }
        compare_failed(report, faults, run)?;
    }
    report.compare(faults.case.title(), b"status 0 at last", b"no such run")
}

/// Runs with this call failing, counted from 1; with 0 none does.
fn run_with<P: Program>(case: Case<'_>, run: &mut Run, call: u64) -> Result<(), AllocError> {
    run.begin(case)?;
    run.fail_at(call)?;
    run.run_line::<P>(case.alloc, case.words())
}

fn compare_failed(report: &mut Report, faults: Faults<'_>, run: &Run) -> Result<(), AllocError> {
    let line = text_of(run.printed());
    if let (3, Some(name)) = (run.status(), name_in(line, "refused: cannot read ")) {
        return compare_unread(report, faults.case, run, name);
    }
    if let (4, Some(name)) = (run.status(), name_in(line, "refused: cannot write ")) {
        return compare_unwritten(report, faults, run, name);
    }
    let want = b"refused: cannot read or write";
    report.compare(faults.case.title(), want, line.as_bytes())
}

/// The name that a line of these words names.
fn name_in<'a>(line: &'a str, words: &str) -> Option<&'a str> {
    line.strip_prefix(words)?.strip_suffix("\n")
}

fn compare_unread(
    report: &mut Report,
    case: Case<'_>,
    run: &Run,
    name: &str,
) -> Result<(), AllocError> {
    compare_found(report, case.title(), name, run.met(name), run.left(name))?;
    if run.met(name).is_none() {
        report.compare(case.title(), b"a file that is there", name.as_bytes())?;
    }
    compare_kept(report, case, run)
}

fn compare_unwritten(
    report: &mut Report,
    faults: Faults<'_>,
    run: &Run,
    name: &str,
) -> Result<(), AllocError> {
    let title = faults.case.title();
    let mut whole = has_changed(run);
    let mut failed = false;
    for output in OUTPUTS {
        failed = failed || output == name;
        whole = whole && !failed;
        let want = want_at(faults.whole, run, output, whole);
        compare_found(report, title, output, want, run.left(output))?;
    }
    if failed {
        return Ok(());
    }
    report.compare(title, b"a file that is written", name.as_bytes())
}

/// The file as the whole run left it, or as it was.
fn want_at<'a>(whole: &'a Run, run: &'a Run, name: &str, is_whole: bool) -> Option<&'a [u8]> {
    if is_whole {
        whole.left(name)
    } else {
        run.met(name)
    }
}

/// Some file that a case may write isn't as it was.
fn has_changed(run: &Run) -> bool {
    for output in OUTPUTS {
        if !is_same(run.met(output), run.left(output)) {
            return true;
        }
    }
    false
}
