//! Rows in conflict: two rows of one kind that match one case and give different outputs there. The rows are swept from
//! the last to the first: once for a combinational primitive, else once for each state, with no pin changed and with
//! each pin changed from each value. A row looks at the words of the cases that it takes alone, at most 2,187 for each
//! output, so the steps are linear in the rows.

ghost use Rattle.std.specs.Prelude.{◌≡◌, ◌+◌, ◌*◌, ◌<◌, ◌≤◌, ℕ, length, Some};
ghost use Rattle.design_cell.specs.Row.{row_at};
ghost use Rattle.design_cell.specs.Conflict.{FindsConflict};
ghost use Rattle.design_cell.specs.Index.{IsFirstBelow};
ghost use Rattle.design_cell.specs.Meeting.{IsRow, is_conflict};
ghost use Rattle.design_cell.specs.Sweep.{AreStateless, FirstToDiffer, sweep_count, earlier_of};

use crate::index::{block_of, first_of};
use crate::probe::Probe;
use crate::row::RawRow;
use crate::sweep::Sweep;

/// Ok where no two rows conflict, else the first pair that does, by their indices.
pub fn check_conflicts(
    sequential: bool,
    rows: &[RawRow],
    inputs: usize,
) -> Result<(), (usize, usize)>
    requires few { inputs ≤ 10 }
    requires rows { (k : ℕ) → k < length rows.now → IsRow inputs (row_at rows.now k) }
    requires states { AreStateless sequential inputs rows.now }
    ensures { FindsConflict inputs rows.now result }
{
    match first_in_conflict(sequential, rows, inputs) {
        None => Ok(()),
        Some(first) => with_second(sequential, rows, inputs, first),
    }
}

/// The pair of a row and the first one that conflicts with it.
fn with_second(
    sequential: bool,
    rows: &[RawRow],
    inputs: usize,
    first: usize,
) -> Result<(), (usize, usize)>
    requires few { inputs ≤ 10 }
    requires rows { (k : ℕ) → k < length rows.now → IsRow inputs (row_at rows.now k) }
    requires states { AreStateless sequential inputs rows.now }
    requires first { FirstToDiffer sequential inputs rows.now (Some first) }
    ensures { FindsConflict inputs rows.now result }
{
    match conflicting(rows, inputs, first) {
        None => Ok(()),
        Some(second) => Err((first, second)),
    }
}

/// The first row that takes a case with one behind it and gives another output there.
fn first_in_conflict(sequential: bool, rows: &[RawRow], inputs: usize) -> Option<usize>
    requires { inputs ≤ 10 }
    ensures { FirstToDiffer sequential inputs rows.now result }
{
    let mut seen = [0; 6561];
    let mut first = None;
    for number in 0..sweep_count(sequential, inputs) {
        first = earlier_of(
            first,
            Sweep::of_number(number).first(rows, inputs, &mut seen),
        );
    }
    first
}

fn sweep_count(sequential: bool, inputs: usize) -> usize
    requires { inputs ≤ 10 }
    ensures { result ≡ sweep_count sequential inputs }
{
    if sequential { 9 * inputs + 3 } else { 1 }
}

/// The earlier of two rows.
fn earlier_of(found: Option<usize>, other: Option<usize>) -> Option<usize>
    ensures { result ≡ earlier_of found other }
{
    match found {
        None => other,
        Some(k) => match other {
            None => Some(k),
            Some(j) => Some(k.min(j)),
        },
    }
}

/// The first row that conflicts with the row of an index.
fn conflicting(rows: &[RawRow], inputs: usize, row: usize) -> Option<usize>
    requires few { inputs ≤ 10 }
    requires row { row < length rows.now }
    ensures { IsFirstBelow (is_conflict inputs (row_at rows.now row)) rows.now (length rows.now) result }
{
    let probe = Probe::of(&rows[row], inputs);
    let mut found = None;
    for k in 0..rows.len() / 64 + 1 {
        found = first_of(found, 64 * k, probe.conflicts(&block_of(rows, 64 * k)));
    }
    found
}
