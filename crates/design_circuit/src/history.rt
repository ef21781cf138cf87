//! What each place shows and keeps, kept by what changes from step to step.

ghost use Rattle.std.specs.Prelude.{◌≡◌, ℕ, List, ◌*◌, ◌<◌, ◌≤◌, ◌^◌, IfNone, IfOk, IfSome, IsFalse, length};
ghost use Rattle.design_circuit.specs.Handed.{IsBlank};
ghost use Rattle.design_circuit.specs.Job.{job_of};
ghost use Rattle.design_circuit.specs.History.{AreRows, HasPlace, blank_history, held_in, held_of_byte, history_by};
ghost use Rattle.design_circuit.specs.History.{net_place};
ghost use Rattle.design_circuit.specs.Row.{AreWritten, IsBlankAt};

use crate::design::Design;
use crate::place::Place;
use crate::stim::Stim;
use crate::two_bits::{BLANK, value_of_two_bits};
use crate::writer::HistoryWriter;
use base_ledger::{Change, LedgerIndex};
use base_lists::Memory;
use design_cell::Value;
use std::alloc::Global;
use std::marker::Model;

/// A value shown and a value kept for each place of a design under a stimulus, written by a `HistoryWriter`. Takes
/// eight bytes for each place that has others than its net a step before, eight for each net and for each step.
#[derive(Debug, Drop)]
pub struct History {
    nets: usize,
    steps: usize,
    rows: LedgerIndex,
}

impl Model for History {
    ghost use Rattle.design_circuit.specs.History.{AreRows, HistoryView, history_by};

    ghost Value = { HistoryView };

    ghost view = { λ h. history_by h.rows.width h.steps h.rows.steps };

    ghost invariant = { λ h. AreRows h.nets h.rows.width h.rows.steps };
}

impl History {
    /// A history in which every shown and kept value is x. Takes some bytes for each net.
    pub fn blank(alloc: Global, design: &Design, stim: &Stim) -> Result<History, Memory>
        requires nets { length design.now.nets ≤ 2 ^ 20 }
        requires places { length design.now.nets * (length stim.now.times * stim.now.rounds) ≤ 2 ^ 40 }
        ensures all { IfOk result (λ h. h ≡ blank_history design.now stim.now) }
        ensures blank { (order : List ℕ) → IfOk result (IsBlank (job_of design.now order stim.now)) }
    {
        let writer = HistoryWriter::blank(alloc, design, stim)?;
        let history = writer.finish(alloc)?;
        Ok(history)
    }

    /// The history of rows.
    pub(crate) fn new(nets: usize, steps: usize, rows: LedgerIndex) -> History
        requires { AreRows nets rows.width rows.steps }
        ensures { result ≡ history_by rows.width steps rows.steps }
    {
        History { nets, steps, rows }
    }

    /// What the place shows.
    pub fn shown(&self, place: Place) -> Value
        requires { HasPlace self.now place }
        ensures { result ≡ (held_in self.now place).shown }
    {
        value_of_two_bits(self.byte(place.net as usize, place.step as usize) % 4)
    }

    /// What the place keeps.
    pub fn kept(&self, place: Place) -> Value
        requires { HasPlace self.now place }
        ensures { result ≡ (held_in self.now place).kept }
    {
        value_of_two_bits(self.byte(place.net as usize, place.step as usize) / 4 % 4)
    }

    /// The nets that were written at a step behind the first, in order; each other has what it had one step before.
    /// None where every place of the step is blank, since nothing was written so late.
    pub fn written(&self, step: usize) -> Option<&[Change]>
        requires later { 0 < step }
        ensures some { IfSome result (λ changes. AreWritten self.now step changes.now) }
        ensures none { IfNone result (IsBlankAt self.now step) }
    {
        if step >= self.rows.steps() {
            return None;
        }
        Some(self.rows.changes_of(step))
    }

    /// How many nets there are.
    pub(crate) fn nets(&self) -> usize
        ensures { result ≡ self.now.nets }
    {
        self.nets
    }

    /// Whether there is a row of a step; behind the last one every place is blank.
    pub(crate) fn has_row(&self, step: usize) -> bool
        ensures { IsFalse result → IsBlankAt self.now step }
    {
        step < self.rows.steps()
    }

    /// The byte of a net at a step.
    pub(crate) fn byte(&self, net: usize, step: usize) -> u8
        requires { net < self.now.nets }
        ensures { HasPlace self.now (net_place step net) →
            held_of_byte result ≡ held_in self.now (net_place step net) }
    {
        if step >= self.rows.steps() {
            return BLANK;
        }
        self.rows.at(net, step)
    }
}
