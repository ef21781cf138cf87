//! A made job once more: made again, it is the same, and repaired it has the same report.

use crate::after::{compare_ended, run_line};
use crate::compared::compare_found;
use crate::given::{Case, OUTPUTS};
use crate::program::Program;
use crate::setting::Run;
use std::alloc::AllocError;
use test_cases::Report;

/// The words of the repair of a made job.
const REPAIR: &str =
    "repair --record r.vcd --scope made --top made --vcd o.vcd --code o.v --cert o.xc m.v";

/// Makes the job of a run once more, and repairs it.
///
/// The second run must leave and print the same, and the report of the repair must begin with what both print.
pub fn run_made<P: Program>(
    report: &mut Report,
    case: Case<'_>,
    made: &Run,
    run: &mut Run,
) -> Result<(), AllocError> {
    make_again::<P>(report, case, made, run)?;
    repair_made::<P>(report, case, made, run)
}

fn make_again<P: Program>(
    report: &mut Report,
    case: Case<'_>,
    made: &Run,
    run: &mut Run,
) -> Result<(), AllocError> {
    run.begin(case)?;
    run.run_line::<P>(case.alloc, case.words())?;
    compare_again(report, case, made, run)
}

fn compare_again(
    report: &mut Report,
    case: Case<'_>,
    made: &Run,
    run: &Run,
) -> Result<(), AllocError> {
    report.compare(case.title(), made.printed(), run.printed())?;
    for name in OUTPUTS {
        compare_found(report, case.title(), name, made.left(name), run.left(name))?;
    }
    Ok(())
}

fn repair_made<P: Program>(
    report: &mut Report,
    case: Case<'_>,
    made: &Run,
    run: &mut Run,
) -> Result<(), AllocError> {
    run_line::<P>(case, made, run, REPAIR)?;
    compare_ended(report, case, "repair", run.status())?;
    compare_begins(report, case, made.printed(), run.printed())
}

/// Compares a text with its beginning, where it begins otherwise.
fn compare_begins(
    report: &mut Report,
    case: Case<'_>,
    want: &[u8],
    text: &[u8],
) -> Result<(), AllocError> {
    if text.starts_with(want) {
        return Ok(());
    }
    report.compare(case.title(), want, text)
}
