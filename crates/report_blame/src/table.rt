//! How many bits each source is to blame for: the sources sorted, their runs counted, and the counts sorted.

ghost use Rattle.std.specs.Prelude.{◌≡◌, ◌<◌, ◌≤◌, All, IfOk, length, map};
ghost use Rattle.std.specs.List.Sorted.{IsNonDecreasing};
ghost use Rattle.design_circuit.specs.Circuit.{job_in};
ghost use Rattle.design_circuit.specs.Filling.{IsPlace};
ghost use Rattle.design_circuit.specs.Fits.{place_at};
ghost use Rattle.design_circuit.specs.Job.{number_of, places_of};
ghost use Rattle.report_blame.specs.Table.{IsBlameTable, source_numbers};
ghost use Rattle.report_blame.specs.Tally.{Counted as ACounted, IsRun, IsTally, row_at};
ghost use Rattle.report_blame.specs.declared.bits.Blamed.{Blamed as ABlamed};

use crate::bits::Blamed;
use base_lists::Memory;
use design_circuit::{Circuit, Place};
use std::alloc::Global;
use std::cmp::Reverse;

/// A count, to be sorted the greatest first, and the number that stands so often.
type Counted = (Reverse<u64>, usize);

/// Each source once with the number of its bits, the greatest number first, then in place order. Takes 8 bytes for each
/// bit and 32 for each source.
pub fn table_of(
    alloc: Global,
    circuit: &Circuit<'_>,
    bits: &[Blamed],
) -> Result<Vec<(Place, u64)>, Memory>
    requires sources { All (λ (b : ABlamed). IsPlace (job_in circuit.now) b.source) bits.now }
    ensures { IfOk result (λ table. IsBlameTable (job_in circuit.now) bits.now table.items) }
{
    let mut numbers = source_numbers(alloc, circuit, bits)?;
    numbers.sort()?;
    let mut rows = runs_of(alloc, numbers.as_slice())?;
    rows.sort()?;
    rows_at(alloc, circuit, rows.as_slice())
}

fn source_numbers(
    alloc: Global,
    circuit: &Circuit<'_>,
    bits: &[Blamed],
) -> Result<Vec<usize>, Memory>
    requires sources { All (λ (b : ABlamed). IsPlace (job_in circuit.now) b.source) bits.now }
    ensures { IfOk result (λ numbers. numbers.items ≡ source_numbers (job_in circuit.now) bits.now) }
{
    let mut numbers = Vec::new(alloc);
    'bits: for bit in bits {
        numbers.push(circuit.number_of(bit.source))?;
    }
    Ok(numbers)
}

/// How often each of some ascending numbers stands there.
fn runs_of(alloc: Global, numbers: &[usize]) -> Result<Vec<Counted>, Memory>
    requires { IsNonDecreasing numbers.now }
    ensures { IfOk result (λ rows. IsTally numbers.now rows.items) }
{
    let mut rows = Vec::new(alloc);
    let mut first = 0;
    'runs: while first < numbers.len() {
        let end = run_end(numbers, first);
        rows.push((Reverse((end - first) as u64), numbers[first]))?;
        first = end;
    }
    Ok(rows)
}

/// Where the run of equal numbers ends that begins at an index.
fn run_end(numbers: &[usize], first: usize) -> usize
    requires { first < length numbers.now }
    ensures { IsRun numbers.now first result }
{
    let mut end = first + 1;
    'equals: while end < numbers.len() && numbers[end] == numbers[first] {
        end += 1;
    }
    end
}

/// The rows, each number as its place.
fn rows_at(
    alloc: Global,
    circuit: &Circuit<'_>,
    rows: &[Counted],
) -> Result<Vec<(Place, u64)>, Memory>
    requires within { All (λ (row : ACounted). row.1 < places_of (job_in circuit.now)) rows.now }
    ensures { IfOk result (λ table. table.items ≡ map (row_at (job_in circuit.now)) rows.now) }
{
    let mut table = Vec::new(alloc);
    'rows: for row in rows {
        table.push((circuit.place_of(row.1), row.0.0))?;
    }
    Ok(table)
}
