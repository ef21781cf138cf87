//! A finished ledger, with its changes by position.

ghost use Rattle.std.specs.Prelude.{◌≡◌, ℕ, ◌-◌, ◌<◌, ◌≤◌, ◌^◌, IfOk, length, slice_index};
ghost use Rattle.base_ledger.specs.Change.{AreInWidth};
ghost use Rattle.base_ledger.specs.Ledger.{AreBounds, logged_steps, RowFollows, step_changes, step_row, steps_between};

use crate::between::changes_between;
use crate::change::Change;
use base_lists::Memory;
use base_sort::Sorted;
use std::alloc::Global;
use std::marker::Model;

/// The steps of a finished ledger. Contracts see the row of each, and what was put at it.
#[derive(Debug, Drop)]
pub struct LedgerIndex {
    width: usize,
    first: u8,
    changes: Vec<Change>,
    starts: Vec<usize>,
    sorted: Sorted,
}

impl Model for LedgerIndex {
    ghost use Rattle.base_ledger.specs.Ledger.{IndexView, logged_steps};
    ghost use Rattle.base_ledger.specs.Index.{IsIndexOf};

    ghost Value = { IndexView };

    ghost view = { λ i. logged_steps i.width i.first i.changes.items i.starts.items };

    ghost invariant = { λ i. IsIndexOf i.width i.changes.items i.starts.items i.sorted };
}

impl LedgerIndex {
    pub(crate) fn new(
        alloc: Global,
        width: usize,
        first: u8,
        changes: Vec<Change>,
        starts: Vec<usize>,
    ) -> Result<LedgerIndex, Memory>
        requires wide { width ≤ 2 ^ 24 }
        requires within { AreInWidth width changes.items }
        requires bounds { AreBounds changes.items starts.items }
        ensures { IfOk result (λ index. index ≡ logged_steps width first changes.items starts.items) }
    {
        if changes.len() > u32::MAX as usize {
            return Err(Memory);
        }
        let sorted = Sorted::new(alloc, width, changes.as_slice())?;
        Ok(LedgerIndex {
            width,
            first,
            changes,
            starts,
            sorted,
        })
    }

    /// How many steps there are.
    pub fn steps(&self) -> usize
        ensures { result ≡ length self.now.steps }
    {
        self.starts.as_slice().len().saturating_sub(1)
    }

    /// What a position has at a step.
    pub fn at(&self, position: usize, step: usize) -> u8
        requires step { step < length self.now.steps }
        requires position { position < self.now.width }
        ensures { result ≡ slice_index (step_row self.now.steps step) position }
    {
        let part = self.sorted.of(position);
        let count = count_below(part, self.starts[step + 1]);
        if count == 0 {
            return self.first;
        }
        self.changes[part[count - 1] as usize].payload()
    }

    /// What was put at a step, in order.
    pub fn changes_of(&self, step: usize) -> &[Change]
        requires { step < length self.now.steps }
        ensures changes { result.now ≡ step_changes self.now.steps step }
        ensures within { AreInWidth self.now.width result.now }
        ensures row { RowFollows self.now.steps step }
    {
        changes_between(self.changes.as_slice(), self.starts.as_slice(), step)
    }

    /// Another one of the same steps. Takes as much memory.
    pub fn copied(&self, alloc: Global) -> Result<LedgerIndex, Memory>
        ensures { IfOk result (λ copy. copy ≡ self.now) }
    {
        let changes = self.changes.as_slice().to_vec(alloc)?;
        let starts = self.starts.as_slice().to_vec(alloc)?;
        let sorted = self.sorted.copied(alloc)?;
        Ok(LedgerIndex {
            width: self.width,
            first: self.first,
            changes,
            starts,
            sorted,
        })
    }
}

/// How many of ascending numbers are below one.
fn count_below(numbers: &[u32], end: usize) -> usize
    ensures within { result ≤ length numbers.now }
    ensures last { 0 < result → slice_index numbers.now (result - 1) < end }
    ensures next { result < length numbers.now → end ≤ slice_index numbers.now result }
{
    let mut low = 0;
    let mut high = numbers.len();
    'halves: while low < high {
        let middle = low + (high - low) / 2;
        if (numbers[middle] as usize) < end {
            low = middle + 1;
        } else {
            high = middle;
        }
    }
    low
}
