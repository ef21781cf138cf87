//! Runs over the files that an earlier run of a case left.

use crate::given::{Case, OUTPUTS};
use crate::program::Program;
use crate::setting::Run;
use crate::words::put_words_instead;
use std::alloc::{AllocError, Global};
use test_cases::Report;

/// Runs the words of a line.
pub fn run_line<P: Program>(
    case: Case<'_>,
    earlier: &Run,
    run: &mut Run,
    line: &str,
) -> Result<(), AllocError> {
    put_after(case, earlier, run)?;
    run.run_line::<P>(case.alloc, line)
}

/// Runs another command on the job of a case: this beginning, then what stands behind the command of the case, without
/// these options and their values.
pub fn run_instead<P: Program>(
    case: Case<'_>,
    earlier: &Run,
    run: &mut Run,
    beginning: &str,
    options: &[&str],
) -> Result<(), AllocError> {
    put_after(case, earlier, run)?;
    let mut words = Vec::new(case.alloc);
    put_words_instead(case.alloc, &mut words, case.words(), beginning, options)?;
    run.run::<P>(case.alloc, words.as_slice());
    Ok(())
}

/// Puts the files of a case, and what the earlier run wrote.
fn put_after(case: Case<'_>, earlier: &Run, run: &mut Run) -> Result<(), AllocError> {
    run.begin(case)?;
    for name in OUTPUTS {
        if let Some(bytes) = earlier.left(name) {
            run.put(name, bytes)?;
        }
    }
    Ok(())
}

/// Compares the status of a command, which must end with 0.
pub fn compare_ended(
    report: &mut Report,
    case: Case<'_>,
    command: &str,
    status: u8,
) -> Result<(), AllocError> {
    let got = ended_line(case.alloc, command, status)?;
    compare_line(report, case, command, got.as_str())
}

fn compare_line(
    report: &mut Report,
    case: Case<'_>,
    command: &str,
    got: &str,
) -> Result<(), AllocError> {
    let want = ended_line(case.alloc, command, 0)?;
    report.compare(case.title(), want.as_bytes(), got.as_bytes())
}

fn ended_line(alloc: Global, command: &str, status: u8) -> Result<String, AllocError> {
    format!(in alloc; "{command}: status {status}")
}
