//! What each position has at each step.

ghost use Rattle.std.specs.Prelude.{◌≡◌, ℕ, ◌-◌, ◌<◌, ◌≤◌, ◌^◌, All, IfOk, OnOk, OnErr, length, slice_index};
ghost use Rattle.base_ledger.specs.Change.{AreInWidth};
ghost use Rattle.base_ledger.specs.Ledger.{IsValueAfter, RowFollows, after_turn, finished_ledger, new_ledger, row_back};
ghost use Rattle.base_ledger.specs.Ledger.{row_with, step_changes, step_row, steps_of, with_put};

use crate::between::changes_between;
use crate::change::Change;
use crate::index::LedgerIndex;
use base_lists::Memory;
use std::alloc::Global;
use std::marker::Model;

/// A value of one byte for each position at each step. Contracts see the rows of all steps, and what was put at each.
#[derive(Debug, Drop)]
pub struct Ledger {
    width: usize,
    first: u8,
    changes: Vec<Change>,
    starts: Vec<usize>,
    row: Vec<u8>,
    one: Vec<u8>,
    two: Vec<u8>,
}

impl Model for Ledger {
    ghost use Rattle.base_ledger.specs.Ledger.{IsLoggedFrom, LedgerView, logged};

    ghost Value = { LedgerView };

    ghost view = { λ l. logged l.width l.first l.changes.items l.starts.items };

    ghost invariant = { λ l. IsLoggedFrom l.width l.first l.changes.items l.starts.items
        l.row.items l.one.items l.two.items };
}

impl Ledger {
    /// One step, in which so many positions have one value. Takes three bytes for each position; what follows takes
    /// four bytes for each change and eight for each step.
    pub fn new(alloc: Global, width: usize, first: u8) -> Result<Ledger, Memory>
        requires { width ≤ 2 ^ 24 }
        ensures { IfOk result (λ ledger. ledger ≡ new_ledger width first) }
    {
        let row = vec![in alloc; first; width]?;
        let one = vec![in alloc; first; width]?;
        let two = vec![in alloc; first; width]?;
        let changes = Vec::new(alloc);
        let mut starts = Vec::new(alloc);
        starts.push(0)?;
        Ok(Ledger {
            width,
            first,
            changes,
            starts,
            row,
            one,
            two,
        })
    }

    /// Writes a value at the step under way. Positions come in any order.
    pub fn put(&mut self, position: usize, payload: u8) -> Result<(), Memory>
        requires { position < self.old.width }
        ensures ok { OnOk result (self.new ≡ with_put self.old position payload) }
        ensures err { OnErr result (self.new ≡ self.old) }
    {
        self.changes.push(Change::new(position, payload))?;
        self.row[position] = payload;
        Ok(())
    }

    /// Goes on to the next step, which begins as the one under way ends. Costs what was put at this step and the one
    /// before.
    pub fn turn(&mut self) -> Result<(), Memory>
        ensures ok { OnOk result (self.new ≡ after_turn self.old) }
        ensures err { OnErr result (self.new ≡ self.old) }
    {
        let end = self.changes.as_slice().len();
        let start = start_back(self.starts.as_slice(), 1);
        let before = start_back(self.starts.as_slice(), 2);
        self.starts.push(end)?;
        write(self.two.as_mut_slice(), &self.changes[before..start]);
        write(self.one.as_mut_slice(), &self.changes[start..end]);
        Ok(())
    }

    /// The number of the step under way.
    pub fn step(&self) -> usize
        ensures { result ≡ length self.now.before }
    {
        self.starts.as_slice().len() - 1
    }

    /// What the position has at the step under way.
    pub fn now(&self, position: usize) -> u8
        requires { position < self.now.width }
        ensures { result ≡ slice_index self.now.last.row position }
    {
        self.row[position]
    }

    /// What it has one step before.
    pub fn one_back(&self, position: usize) -> u8
        requires position { position < self.now.width }
        requires step { 1 ≤ length self.now.before }
        ensures { result ≡ slice_index (row_back self.now 1) position }
    {
        self.one[position]
    }

    /// What it has two steps before.
    pub fn two_back(&self, position: usize) -> u8
        requires position { position < self.now.width }
        requires step { 2 ≤ length self.now.before }
        ensures { result ≡ slice_index (row_back self.now 2) position }
    {
        self.two[position]
    }

    /// What it has at any step so far. One that lies more than two steps back is looked for in the log, from its end.
    pub fn at(&self, position: usize, step: usize) -> u8
        requires position { position < self.now.width }
        requires step { step ≤ length self.now.before }
        ensures { result ≡ slice_index (step_row (steps_of self.now) step) position }
    {
        let back = self.starts.as_slice().len() - 1 - step;
        if back == 0 {
            self.now(position)
        } else if back == 1 {
            self.one_back(position)
        } else if back == 2 {
            self.two_back(position)
        } else {
            let end = self.starts[step + 1];
            value_after(&self.changes[..end], position, self.first)
        }
    }

    /// What was put at the step under way, in order.
    pub fn changes(&self) -> &[Change]
        ensures { result.now ≡ self.now.last.changes }
    {
        let start = self.starts[self.starts.len() - 1];
        &self.changes[start..]
    }

    /// What was put at a step before, in order.
    pub fn changes_of(&self, step: usize) -> &[Change]
        requires { step < length self.now.before }
        ensures changes { result.now ≡ step_changes self.now.before step }
        ensures row { RowFollows self.now.before step }
    {
        changes_between(self.changes.as_slice(), self.starts.as_slice(), step)
    }

    /// The finished ledger, to look up any place. Takes eight bytes for each position and four for each change; with
    /// 2^32 changes or more it answers `Memory`.
    pub fn index(self, alloc: Global) -> Result<LedgerIndex, Memory>
        ensures { IfOk result (λ index. index ≡ finished_ledger self) }
    {
        let Ledger {
            width,
            first,
            changes,
            mut starts,
            row: _,
            one: _,
            two: _,
        } = self;
        let end = changes.as_slice().len();
        starts.push(end)?;
        LedgerIndex::new(alloc, width, first, changes, starts)
    }
}

/// Where the step begins that is so many from the end, or the first one.
fn start_back(starts: &[usize], back: usize) -> usize
    requires some { 0 < length starts.now }
    requires back { 0 < back }
    ensures { result ≡ slice_index starts.now (length starts.now - back) }
{
    starts[starts.len().saturating_sub(back)]
}

/// What a position has after changes of a row that has one value everywhere.
fn value_after(changes: &[Change], position: usize, first: u8) -> u8
    ensures { IsValueAfter first changes.now position result }
{
    let mut count = changes.len();
    'changes: while count > 0 {
        count -= 1;
        if changes[count].position() == position {
            return changes[count].payload();
        }
    }
    first
}

/// Writes changes into a row, one after another.
fn write(row: &mut [u8], changes: &[Change])
    requires { AreInWidth (length row.old) changes.now }
    ensures { row.new ≡ row_with row.old changes.now }
{
    'changes: for change in changes {
        row[change.position()] = change.payload();
    }
}
