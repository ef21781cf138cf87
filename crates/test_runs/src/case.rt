//! A case: a run and what it must leave.
//!
//! `> status 5` is its status, `> printed` what it prints, and `> o.vcd` a file that it writes, with the bytes beneath.
//! `> bits` is what a report has behind its first three lines, in place of `> printed`. `> heads o.xc` has a line for
//! each line of a file, with which that begins, and with `> none o.v` there is no such file. Without these nothing is
//! printed, and each file is as it was; but a repair with status 0 also writes o.v and o.xc, and `make` m.v and r.vcd,
//! named or not.
//!
//! The certificate of a repair with status 0 is then checked and upgraded, and its code replayed. What `make` wrote is
//! made once more, and repaired. Of what `export` wrote, each query is proved by its log. `cut o.xc` makes of a case
//! one run for each beginning of the file, and `fail each` one for each call of the shelf, which fails, with `> calls`
//! for a table of them.

use crate::back::run_back;
use crate::compared::compare_run;
use crate::cut::run_cuts;
use crate::exported::run_exported;
use crate::failing::run_failing;
use crate::given::Case;
use crate::made::run_made;
use crate::program::Program;
use crate::setting::Run;
use std::alloc::AllocError;
use test_cases::Report;

/// Runs a case, and compares what it leaves.
pub fn run_case<P: Program>(report: &mut Report, case: Case<'_>) -> Result<(), AllocError> {
    case.check(report)?;
    run_new::<P>(report, case)?;
    report.end_case();
    Ok(())
}

fn run_new<P: Program>(report: &mut Report, case: Case<'_>) -> Result<(), AllocError> {
    let mut first = Run::new(case);
    let mut run = Run::new(case);
    run_kind::<P>(report, case, &mut first, &mut run)
}

/// Runs a case: the first run, and those beside it.
fn run_kind<P: Program>(
    report: &mut Report,
    case: Case<'_>,
    first: &mut Run,
    run: &mut Run,
) -> Result<(), AllocError> {
    if let Some(name) = case.line("cut ") {
        return run_cuts::<P>(report, case, first, run, name);
    }
    if case.line("fail each").is_some() {
        return run_failing::<P>(report, case, first, run);
    }
    run_once::<P>(report, case, first)?;
    run_on::<P>(report, case, first, run)
}

fn run_once<P: Program>(
    report: &mut Report,
    case: Case<'_>,
    run: &mut Run,
) -> Result<(), AllocError> {
    run.begin(case)?;
    run.set_faults(case)?;
    run.run_line::<P>(case.alloc, case.words())?;
    compare_run(report, case, run)
}

/// Compares what other runs make of that which the first left.
fn run_on<P: Program>(
    report: &mut Report,
    case: Case<'_>,
    first: &Run,
    run: &mut Run,
) -> Result<(), AllocError> {
    if first.status() != 0 {
        return Ok(());
    }
    let words = case.words();
    if words.starts_with("repair ") {
        return run_back::<P>(report, case, first, run);
    }
    if words.starts_with("make ") {
        return run_made::<P>(report, case, first, run);
    }
    if words.starts_with("export ") {
        return run_exported::<P>(report, case, first, run);
    }
    Ok(())
}
