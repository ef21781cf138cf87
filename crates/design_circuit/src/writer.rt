//! A history as it is written, step by step.

ghost use Rattle.std.specs.Prelude.{◌≡◌, ℕ, List, ◌≤◌, ◌^◌, IfOk, OnErr, OnOk, length};
ghost use Rattle.design_circuit.specs.Handed.{IsBlank};
ghost use Rattle.design_circuit.specs.Job.{job_of};
ghost use Rattle.design_circuit.specs.History.{HasPlace, IsNextStep, held_in, held_of_byte, new_writer, writer_with};

use crate::design::Design;
use crate::history::History;
use crate::place::Place;
use crate::stim::Stim;
use crate::two_bits::{BLANK, byte_of, value_of_two_bits};
use base_ledger::Ledger;
use base_lists::Memory;
use design_cell::Value;
use std::alloc::Global;
use std::marker::Model;

/// The places of a design under a stimulus as they are written. Contracts see the step under way, and the history that
/// would be finished now.
#[derive(Debug, Drop)]
pub struct HistoryWriter {
    nets: usize,
    steps: usize,
    rows: Ledger,
}

impl Model for HistoryWriter {
    ghost use Rattle.design_circuit.specs.History.{AreRows, WriterView, writer_by};
    ghost use Rattle.base_ledger.specs.Ledger.{steps_of};

    ghost Value = { WriterView };

    ghost view = { λ w. writer_by w.steps w.rows };

    ghost invariant = { λ w. AreRows w.nets w.rows.width (steps_of w.rows) };
}

impl HistoryWriter {
    /// Step 0 of a history in which every shown and kept value is x. Takes three bytes for each net; what follows takes
    /// four for each place that gets another value than its net has a step before, and eight for each step.
    pub fn blank(alloc: Global, design: &Design, stim: &Stim) -> Result<HistoryWriter, Memory>
        requires { length design.now.nets ≤ 2 ^ 20 }
        ensures new { IfOk result (λ writer. writer ≡ new_writer design.now stim.now) }
        ensures blank { (order : List ℕ) → IfOk result (λ w. IsBlank (job_of design.now order stim.now) w.history) }
    {
        let nets = design.nets.as_slice().len();
        let steps = stim.times.as_slice().len() * stim.rounds as usize;
        let rows = Ledger::new(alloc, nets, BLANK)?;
        Ok(HistoryWriter { nets, steps, rows })
    }

    /// Writes what a place of the step under way shows and keeps, and leaves all other places. Takes four bytes where
    /// that isn't what the place has.
    pub fn set(&mut self, place: Place, shown: Value, kept: Value) -> Result<(), Memory>
        requires place { HasPlace self.old.history place }
        requires step { place.step ≡ self.old.step }
        ensures ok { OnOk result (self.new ≡ writer_with self.old place record { shown = shown; kept = kept }) }
        ensures err { OnErr result (self.new ≡ self.old) }
    {
        let net = place.net as usize;
        let byte = byte_of(shown, kept);
        if self.rows.now(net) == byte {
            return Ok(());
        }
        self.rows.put(net, byte)?;
        Ok(())
    }

    /// Begins the next step as a copy of the one under way. Costs the places that were written at this step and at the
    /// one before.
    pub fn next_step(&mut self) -> Result<(), Memory>
        ensures ok { OnOk result (IsNextStep self.old self.new) }
        ensures err { OnErr result (self.new ≡ self.old) }
    {
        self.rows.turn()?;
        Ok(())
    }

    /// What the place shows. One that lies more than two steps back is looked for in all that was written.
    pub fn shown(&self, place: Place) -> Value
        requires { HasPlace self.now.history place }
        ensures { result ≡ (held_in self.now.history place).shown }
    {
        value_of_two_bits(self.byte(place) % 4)
    }

    /// What the place keeps, looked for in the same way.
    pub fn kept(&self, place: Place) -> Value
        requires { HasPlace self.now.history place }
        ensures { result ≡ (held_in self.now.history place).kept }
    {
        value_of_two_bits(self.byte(place) / 4 % 4)
    }

    /// The history as it is written so far, to look up any place. Takes eight bytes for each net, and four for each
    /// place that was written; with 2^32 of them or more it answers `Memory`.
    pub fn finish(self, alloc: Global) -> Result<History, Memory>
        ensures { IfOk result (λ history. history ≡ self.history) }
    {
        let HistoryWriter { nets, steps, rows } = self;
        let rows = rows.index(alloc)?;
        Ok(History::new(nets, steps, rows))
    }

    fn byte(&self, place: Place) -> u8
        requires { HasPlace self.now.history place }
        ensures { held_of_byte result ≡ held_in self.now.history place }
    {
        let step = place.step as usize;
        if step > self.rows.step() {
            return BLANK;
        }
        self.rows.at(place.net as usize, step)
    }
}
