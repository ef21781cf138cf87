//! A row as it is compared with 64 others at once: by its column's pairs of values it picks words of their index.

ghost use Rattle.std.specs.Prelude.{◌≡◌, ◌<◌, ◌≤◌, length};
ghost use Rattle.design_cell.specs.declared.row.RawRow.{RawRow as a_row};
ghost use Rattle.design_cell.specs.Row.{symbol_at, is_edge_row};
ghost use Rattle.design_cell.specs.Below.{any_below};
ghost use Rattle.design_cell.specs.Index.{TellsRows};
ghost use Rattle.design_cell.specs.Meeting.{takes, meet_at, meet, meet_below, part_at, same_kind, is_conflict};
ghost use Rattle.design_cell.specs.Taken.{ArePairs, AreStates, AreOutputs};

use crate::index::{Block, code, value_of};
use crate::row::RawRow;
use crate::symbol::Symbol;
use crate::value::Value;

/// A row's symbols by the pairs of values that they take, nine a column, and its outputs by the states that it takes.
#[derive(Clone, Copy)]
pub struct Probe {
    pub inputs: usize,
    pub is_edge: bool,
    pub takes: [bool; 90],
    pub states: [bool; 3],
    pub outputs: [Value; 3],
    pub ghost few: { inputs ≤ 10 },
}

impl Probe {
    ghost use Rattle.design_cell.specs.Probe.{IsProbe, Tells};

    pub fn of(row: &RawRow, inputs: usize) -> Probe
        requires { inputs ≤ 10 }
        ensures { IsProbe inputs row.now result }
    {
        Probe {
            inputs,
            is_edge: row.is_edge_row(),
            takes: taken_pairs(row, inputs),
            states: taken_states(row.symbol_at(inputs)),
            outputs: outputs_of(row.output),
        }
    }

    /// Which of 64 rows are in conflict with the row.
    pub fn conflicts(&self, block: &Block) -> u64
        ensures { Tells self.now block.now is_conflict result }
    {
        let word = self.of_kind(block) & self.parting(block);
        if word == 0 {
            0
        } else {
            word & self.meeting(block)
        }
    }

    /// Which are of its kind.
    fn of_kind(&self, block: &Block) -> u64
        ensures { (row : a_row) → self.now.is_edge ≡ is_edge_row row → TellsRows block.now (same_kind row) result }
    {
        if self.is_edge {
            block.edges
        } else {
            !block.edges
        }
    }

    /// Which give another output at a state that both take.
    fn parting(&self, block: &Block) -> u64
        ensures { Tells self.now block.now (λ inputs row other. any_below 3 (part_at inputs row other)) result }
    {
        let mut word = 0;
        for state in 0..3 {
            word |= self.parting_at(block, state);
        }
        word
    }

    fn parting_at(&self, block: &Block, state: usize) -> u64
        requires { state < 3 }
        ensures { Tells self.now block.now (λ inputs row other. part_at inputs row other state) result }
    {
        if self.states[state] {
            block.masks[self.inputs * 9 + state * 4]
                & !block.outputs[state * 3 + code(self.outputs[state])]
        } else {
            0
        }
    }

    /// Which meet it in each column.
    fn meeting(&self, block: &Block) -> u64
        ensures { Tells self.now block.now meet_below result }
    {
        let mut word = u64::MAX;
        for c in 0..self.inputs {
            word &= self.meeting_at(block, c);
        }
        word
    }

    /// Which meet it in a column.
    fn meeting_at(&self, block: &Block, c: usize) -> u64
        requires { c < self.now.inputs }
        ensures { Tells self.now block.now (λ _ row other. meet (symbol_at row c) (symbol_at other c)) result }
    {
        let mut word = 0;
        for pair in 0..9 {
            word |= self.taking(block, c, pair);
        }
        word
    }

    /// Which fit a pair of values that the row takes in a column.
    fn taking(&self, block: &Block, c: usize, pair: usize) -> u64
        requires column { c < self.now.inputs }
        requires pair { pair < 9 }
        ensures { Tells self.now block.now (λ _ row other. meet_at (symbol_at row c) (symbol_at other c) pair) result }
    {
        if self.takes[9 * c + pair] {
            block.masks[9 * c + pair]
        } else {
            0
        }
    }
}

/// The pairs of values that a row's symbols take, nine a column.
fn taken_pairs(row: &RawRow, inputs: usize) -> [bool; 90]
    requires { inputs ≤ 10 }
    ensures long { length result ≡ 90 }
    ensures taken { ArePairs inputs row.now result }
{
    let mut pairs = [false; 90];
    for p in 0..9 * inputs {
        pairs[p] = takes(row.symbol_at(p / 9), p % 9);
    }
    pairs
}

/// Whether a symbol takes a pair of values.
#[tactic(auto, unfolding(crate::specs::Meeting::takes))]
fn takes(symbol: Symbol, pair: usize) -> bool
    requires { pair < 9 }
    ensures { result ≡ takes symbol pair }
{
    symbol.fits(value_of(pair / 3), value_of(pair % 3))
        && (symbol.is_edge() || pair / 3 == pair % 3)
}

/// Whether a state's symbol takes 0, 1 and x.
fn taken_states(symbol: Symbol) -> [bool; 3]
    ensures { AreStates symbol result }
{
    [
        symbol.fits(Value::Zero, Value::Zero),
        symbol.fits(Value::One, Value::One),
        symbol.fits(Value::X, Value::X),
    ]
}

/// The output at the states 0, 1 and x.
fn outputs_of(symbol: Symbol) -> [Value; 3]
    ensures { AreOutputs symbol result }
{
    [
        symbol.output(Value::Zero),
        symbol.output(Value::One),
        symbol.output(Value::X),
    ]
}
