//! The way back from a repair: its certificate is checked and upgraded, and its code replayed.

use crate::after::{compare_ended, run_instead};
use crate::compared::{compare_found, compare_kept};
use crate::given::Case;
use crate::program::Program;
use crate::setting::Run;
use std::alloc::AllocError;
use test_cases::Report;

/// Checks and upgrades the certificate, and replays the code that a repair wrote.
///
/// The check must print the same report and write nothing, and the replay must write the same recording to p.vcd. What
/// is printed of the upgrade of a certificate of form 1 begins with the same report, and the check of what it wrote to
/// p.xc prints the same as it.
pub fn run_back<P: Program>(
    report: &mut Report,
    case: Case<'_>,
    repaired: &Run,
    run: &mut Run,
) -> Result<(), AllocError> {
    check_back::<P>(report, case, repaired, run)?;
    replay_back::<P>(report, case, repaired, run)?;
    if case.words().contains("--form 2") {
        return Ok(());
    }
    upgrade_back::<P>(report, case, repaired, run)?;
    check_upgraded::<P>(report, case, run, &mut Run::new(case))
}

fn check_back<P: Program>(
    report: &mut Report,
    case: Case<'_>,
    repaired: &Run,
    run: &mut Run,
) -> Result<(), AllocError> {
    let dropped = ["--vcd", "--code", "--form"];
    run_instead::<P>(case, repaired, run, "check", &dropped)?;
    compare_report(report, case, repaired, run)?;
    compare_kept(report, case, run)
}

/// Compares what a check printed with what it must print, that of the earlier run.
fn compare_report(
    report: &mut Report,
    case: Case<'_>,
    earlier: &Run,
    run: &Run,
) -> Result<(), AllocError> {
    compare_ended(report, case, "check", run.status())?;
    report.compare(case.title(), earlier.printed(), run.printed())
}

fn replay_back<P: Program>(
    report: &mut Report,
    case: Case<'_>,
    repaired: &Run,
    run: &mut Run,
) -> Result<(), AllocError> {
    let dropped = [
        "--vcd",
        "--cert",
        "--conflicts",
        "--enumerate",
        "--form",
        "--report",
    ];
    run_instead::<P>(case, repaired, run, "replay --vcd p.vcd", &dropped)?;
    compare_ended(report, case, "replay", run.status())?;
    compare_found(
        report,
        case.title(),
        "p.vcd",
        run.met("o.vcd"),
        run.left("p.vcd"),
    )
}

fn upgrade_back<P: Program>(
    report: &mut Report,
    case: Case<'_>,
    repaired: &Run,
    run: &mut Run,
) -> Result<(), AllocError> {
    let dropped = ["--vcd", "--code", "--form"];
    run_instead::<P>(case, repaired, run, "upgrade --to p.xc", &dropped)?;
    compare_ended(report, case, "upgrade", run.status())?;
    compare_begun(report, case, repaired.printed(), run.printed())
}

/// Compares the beginning of a text with what that must be.
fn compare_begun(
    report: &mut Report,
    case: Case<'_>,
    want: &[u8],
    text: &[u8],
) -> Result<(), AllocError> {
    let same = want.len().min(text.len());
    report.compare(case.title(), want, &text[..same])
}

fn check_upgraded<P: Program>(
    report: &mut Report,
    case: Case<'_>,
    upgraded: &Run,
    run: &mut Run,
) -> Result<(), AllocError> {
    let dropped = ["--vcd", "--code", "--form", "--cert"];
    run_instead::<P>(case, upgraded, run, "check --cert p.xc", &dropped)?;
    compare_report(report, case, upgraded, run)
}
