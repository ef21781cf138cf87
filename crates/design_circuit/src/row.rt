//! A history read step by step.

ghost use Rattle.std.specs.Prelude.{◌≡◌, ◌<◌, ◌^◌, IfOk, length};
ghost use Rattle.design_circuit.specs.History.{HasPlace, held_in, net_place};
ghost use Rattle.design_circuit.specs.Row.{AreBytesAt, first_row, next_row};
ghost use Rattle.base_ledger.specs.Change.{AreInWidth};
ghost use Rattle.base_ledger.specs.Ledger.{row_with};

use crate::history::History;
use crate::two_bits::{BLANK, value_of_two_bits};
use base_ledger::Change;
use base_lists::Memory;
use design_cell::Value;
use std::alloc::Global;
use std::marker::Model;

/// The row of a history at a step, for readers that go from step to step. Contracts see the history and the step.
#[derive(Debug, Drop)]
pub struct HistoryRow<'a> {
    history: &'a History,
    step: usize,
    bytes: Vec<u8>,
}

impl<'a> Model for HistoryRow<'a> {
    ghost use Rattle.design_circuit.specs.Row.{AreBytesAt, RowView};

    ghost Value = { RowView };

    ghost view = { λ r. record { history = r.history.now; step = r.step } };

    ghost invariant = { λ r. AreBytesAt r.history.now r.step r.bytes.items };
}

impl<'a> HistoryRow<'a> {
    /// The row of the first step. Takes a byte for each net.
    pub fn first(alloc: Global, history: &'a History) -> Result<HistoryRow<'a>, Memory>
        ensures { IfOk result (λ row. row ≡ first_row history.now) }
    {
        let bytes = first_bytes(alloc, history)?;
        Ok(HistoryRow {
            history,
            step: 0,
            bytes,
        })
    }

    /// The step.
    pub fn step(&self) -> usize
        ensures { result ≡ self.now.step }
    {
        self.step
    }

    /// The history.
    pub fn history(&self) -> &'a History
        ensures { result.now ≡ self.now.history }
    {
        self.history
    }

    /// Goes on to the next step. Costs the places that were written at it.
    pub fn next_step(&mut self)
        requires { self.old.step < 2 ^ 32 }
        ensures { self.new ≡ next_row self.old }
    {
        let history = self.history;
        let had_row = history.has_row(self.step);
        self.step += 1;
        match history.written(self.step) {
            Some(changes) => write(self.bytes.as_mut_slice(), changes),
            None if had_row => self.bytes.as_mut_slice().fill(BLANK),
            None => {}
        }
    }

    /// What a net shows at the step.
    pub fn shown(&self, net: u32) -> Value
        requires { HasPlace self.now.history (net_place self.now.step net) }
        ensures { result ≡ (held_in self.now.history (net_place self.now.step net)).shown }
    {
        value_of_two_bits(self.bytes[net as usize] % 4)
    }

    /// What it keeps there.
    pub fn kept(&self, net: u32) -> Value
        requires { HasPlace self.now.history (net_place self.now.step net) }
        ensures { result ≡ (held_in self.now.history (net_place self.now.step net)).kept }
    {
        value_of_two_bits(self.bytes[net as usize] / 4 % 4)
    }
}

/// A byte for each net at the first step.
fn first_bytes(alloc: Global, history: &History) -> Result<Vec<u8>, Memory>
    ensures { IfOk result (λ bytes. AreBytesAt history.now 0 bytes.items) }
{
    let nets = history.nets();
    let mut bytes = vec![in alloc; BLANK; nets]?;
    'nets: for net in 0..nets {
        bytes[net] = history.byte(net, 0);
    }
    Ok(bytes)
}

/// Writes changes into a row, one after another.
fn write(row: &mut [u8], changes: &[Change])
    requires { AreInWidth (length row.old) changes.now }
    ensures { row.new ≡ row_with row.old changes.now }
{
    'changes: for change in changes {
        row[change.position()] = change.payload();
    }
}
