//! How many places of a wave have which end.

ghost use Rattle.std.specs.Prelude.{◌≡◌, ◌+◌, ◌*◌, ◌<◌, ◌≤◌, ◌^◌, IfOk, length};
ghost use Rattle.report_bits.specs.Counts.{counts_below, counts_of, total, with_counts, with_place};
ghost use Rattle.report_bits.specs.Ends.{HasEnd, with_end};

use crate::ends::{End, Ends, end_of};
use crate::rows::{bring_rows, first_rows};
use base_lists::Memory;
use design_cell::Value;
use design_circuit::{Mark, width_of};
use std::alloc::Global;
use wave_proved::Wave;

/// How many written places have which end.
#[derive(Clone, Copy, Debug, PartialEq, Eq)]
pub struct Counts {
    /// Certain places that the history knows.
    pub known: u64,
    /// Certain places that the history doesn't know.
    pub repaired: u64,
    /// Unknown places.
    pub unknown: u64,
    /// Undecided places.
    pub undecided: u64,
}

impl Counts {
    /// Counts a place with this mark, at which the history shows this value.
    fn add(&mut self, mark: Mark, shown: Value)
        requires { total self.old < 2 ^ 40 }
        ensures { self.new ≡ with_place self.old mark shown }
    {
        self.gain(end_of(mark, shown));
    }

    /// Counts an end more.
    pub fn gain(&mut self, end: End)
        requires { total self.old < 2 ^ 40 }
        ensures { self.new ≡ with_end self.old end }
    {
        match end {
            End::Known => self.known += 1,
            End::Repaired => self.repaired += 1,
            End::Unknown => self.unknown += 1,
            End::Undecided => self.undecided += 1,
        }
    }

    /// Counts an end less.
    pub fn take(&mut self, end: End)
        requires { HasEnd self.old end }
        ensures { with_end self.new end ≡ self.old }
    {
        match end {
            End::Known => self.known -= 1,
            End::Repaired => self.repaired -= 1,
            End::Unknown => self.unknown -= 1,
            End::Undecided => self.undecided -= 1,
        }
    }

    /// Counts what other counts have too.
    fn add_counts(&mut self, more: Counts)
        requires { total self.old + total more ≤ 2 ^ 40 }
        ensures { self.new ≡ with_counts self.old more }
    {
        self.known += more.known;
        self.repaired += more.repaired;
        self.unknown += more.unknown;
        self.undecided += more.undecided;
    }
}

/// Nothing is counted.
const NONE: Counts = Counts {
    known: 0,
    repaired: 0,
    unknown: 0,
    undecided: 0,
};

/// How many written places of a wave have which end.
///
/// Takes three bytes for each net, and time linear in the steps, in the nets and in what the wave and its history write
/// anew.
pub fn counts_of(alloc: Global, wave: &Wave<'_>) -> Result<Counts, Memory>
    ensures counts { IfOk result (λ counts. counts ≡ counts_of wave.now) }
    ensures all { IfOk result (λ counts. total counts ≡ length wave.now.written) }
{
    let width = width_of(&wave.circuit());
    let steps = whole_steps(width, wave.count());
    let mut counts = count_steps(alloc, wave, steps)?;
    count_rest(wave, steps * width, &mut counts);
    Ok(counts)
}

/// How many steps have all their places among so many.
fn whole_steps(width: usize, count: usize) -> usize
    ensures within { result * width ≤ count }
    ensures some { 0 < result → 0 < width }
{
    if width == 0 { 0 } else { count / width }
}

/// The counts of so many steps, each place of which is written.
fn count_steps(alloc: Global, wave: &Wave<'_>, steps: usize) -> Result<Counts, Memory>
    requires within { steps * length wave.now.design.nets ≤ length wave.now.written }
    requires some { 0 < steps → 0 < length wave.now.design.nets }
    ensures { IfOk result (λ counts. counts ≡ counts_below wave.now (steps * length wave.now.design.nets)) }
{
    // With it comes the fact that the steps are few.
    wave.recall();
    let mut rows = first_rows(alloc, wave)?;
    let mut ends = Ends::unknown(alloc, width_of(&wave.circuit()))?;
    let mut counts = NONE;
    'steps: for step in 0..steps {
        bring_rows(alloc, wave, &mut rows, step as u32)?;
        ends.bring(wave, &rows, step as u32);
        let more = ends.counts();
        counts.add_counts(more);
    }
    Ok(counts)
}

/// Counts the places from a number on, one by one.
fn count_rest(wave: &Wave<'_>, first: usize, counts: &mut Counts)
    requires within { first ≤ length wave.now.written }
    requires before { counts.old ≡ counts_below wave.now first }
    ensures { counts.new ≡ counts_below wave.now (length wave.now.written) }
{
    let circuit = wave.circuit();
    let count = wave.count();
    'numbers: for number in first..count {
        let shown = wave.replayed().shown(circuit.place_of(number));
        counts.add(wave.written(number).mark, shown);
    }
}
