//! The way back from an export: each log is taken back, with its query.

use crate::after::run_line;
use crate::given::Case;
use crate::program::Program;
use crate::setting::Run;
use std::alloc::{AllocError, Global};
use test_cases::Report;

/// The logs that a case may have, and the words that prove the query of each.
const LOGS: [(&str, &str); 4] = [
    ("p-1.log", "prove --cnf p-1.cnf --log p-1.log"),
    ("p-2.log", "prove --cnf p-2.cnf --log p-2.log"),
    ("p-3.log", "prove --cnf p-3.cnf --log p-3.log"),
    ("p-7.log", "prove --cnf p-7.cnf --log p-7.log"),
];

/// Proves each query by its log. A log that ends with the empty clause must refute the query, and all of its clauses
/// are counted; another is refused after its last clause.
pub fn run_exported<P: Program>(
    report: &mut Report,
    case: Case<'_>,
    exported: &Run,
    run: &mut Run,
) -> Result<(), AllocError> {
    for (log, line) in LOGS {
        if let Some(bytes) = exported.left(log) {
            run_line::<P>(case, exported, run, line)?;
            compare_proved(report, case, bytes, run)?;
        }
    }
    Ok(())
}

fn compare_proved(
    report: &mut Report,
    case: Case<'_>,
    log: &[u8],
    proved: &Run,
) -> Result<(), AllocError> {
    let want = proved_line(case.alloc, log)?;
    report.compare(case.title(), want.as_bytes(), proved.printed())
}

/// The line that the proof of a log prints.
fn proved_line(alloc: Global, log: &[u8]) -> Result<String, AllocError> {
    let count = log.iter().filter(|byte| **byte == b'\n').count();
    if ends_empty(log) {
        return format!(in alloc; "refuted {count}\n");
    }
    let after = count.saturating_add(1);
    format!(in alloc; "refused: log clause {after}\n")
}

/// The last clause is empty.
fn ends_empty(log: &[u8]) -> bool {
    log == b"0\n".as_slice() || log.ends_with(b"\n0\n")
}
