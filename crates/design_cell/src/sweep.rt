//! One sweep over the rows: the cases in which one pin has changed from one value, or none has, at one state. For each
//! of these cases and each output a bit says whether a row behind takes the case and gives the output.

ghost use Rattle.std.specs.Prelude.{◌≡◌, ◌<◌, ◌≤◌, ℕ, length, slice_index, cond, Some, IsTrue, ◌+◌};
ghost use Rattle.design_cell.specs.Sweep.{sweep_of, changed_of, accepts, takes_part, is_turned, FirstToClash};
ghost use Rattle.design_cell.specs.Seen.{AreDigits, IsTaken, Looks, IsSwept, Repeats};

use crate::index::{code, old_value, value_of};
use crate::row::{Changed, RawRow};
use crate::taken::{Taken, triples, word_count};
use crate::value::Value;

/// What the cases of a sweep have in common.
#[derive(Clone, Copy)]
pub struct Sweep {
    pub changed: Option<Changed>,
    pub state: Value,
}

impl Sweep {
    /// The sweeps by numbers: three for no changed pin, and then nine for each pin.
    pub fn of_number(number: usize) -> Sweep
        ensures { result ≡ sweep_of number }
    {
        Sweep {
            changed: changed_of(number / 3),
            state: value_of(number % 3),
        }
    }

    /// The first row that takes a case of the sweep with one behind it and gives another output there.
    pub fn first(self, rows: &[RawRow], inputs: usize, seen: &mut [u64]) -> Option<usize>
        requires few { inputs ≤ 10 }
        requires room { length seen.old ≡ 6561 }
        ensures room { length seen.new ≡ 6561 }
        ensures first { FirstToClash inputs self rows.now 0 result }
    {
        clear(seen, 3 * word_count(inputs));
        let mut first = None;
        for back in 0..rows.len() {
            first = self.step(rows, inputs, seen, rows.len() - 1 - back, first);
        }
        first
    }

    /// The first row from one on, where the first one behind it is known. The row's own cases are marked; a row that
    /// repeats the one behind it adds nothing, and is the first where that one was.
    fn step(
        self,
        rows: &[RawRow],
        inputs: usize,
        seen: &mut [u64],
        i: usize,
        first: Option<usize>,
    ) -> Option<usize>
        requires few { inputs ≤ 10 }
        requires row { i < length rows.now }
        requires behind { IsSwept inputs self rows.now (i + 1) seen.old first }
        ensures { IsSwept inputs self rows.now i seen.new result }
    {
        if is_repeated(rows, i) {
            replaced(first, first == Some(i + 1), i)
        } else {
            let hit = self.look(&rows[i], inputs, seen);
            replaced(first, hit, i)
        }
    }

    /// Whether a row behind takes a case with a row and gives another output there. The row's own cases are marked.
    fn look(self, row: &RawRow, inputs: usize, seen: &mut [u64]) -> bool
        requires few { inputs ≤ 10 }
        requires room { length seen.old ≡ 6561 }
        ensures { Looks inputs self row.now seen.old seen.new result }
    {
        if self.takes_part(row, inputs) {
            let taken = self.taken(row, inputs);
            let hit = taken.meets(seen);
            taken.mark(seen);
            hit
        } else {
            false
        }
    }

    /// Whether a row can take a case of the sweep, by its kind and its state.
    fn takes_part(self, row: &RawRow, inputs: usize) -> bool
        ensures { result ≡ takes_part inputs self row.now }
    {
        self.is_turned(row) && row.symbol_at(inputs).fits(self.state, self.state)
    }

    fn is_turned(self, row: &RawRow) -> bool
        ensures { result ≡ is_turned self.changed row.now }
    {
        match self.changed {
            None => !row.is_edge_row(),
            Some(changed) => row.symbol_at(changed.pin).is_edge(),
        }
    }

    fn taken(self, row: &RawRow, inputs: usize) -> Taken
        requires { inputs ≤ 10 }
        ensures { IsTaken inputs self row.now result }
    {
        let digits = self.digits(row, inputs);
        Taken {
            inputs,
            middle: triples(&digits, 3),
            low: triples(&digits, 0),
            output: code(row.output.output(self.state)),
            digits,
        }
    }

    /// Which digits the columns of a row take, three a column.
    fn digits(self, row: &RawRow, inputs: usize) -> [bool; 30]
        ensures long { length result ≡ 30 }
        ensures digits { AreDigits inputs self row.now result }
    {
        let mut digits = [false; 30];
        for k in 0..30 {
            digits[k] = self.accepts(row, inputs, k / 3, k % 3);
        }
        digits
    }

    /// Whether a column takes a digit, 0, 1 or 2 for the value 0, 1 or x. A column behind the inputs takes 0 alone.
    #[tactic(auto, unfolding(crate::specs::Sweep::accepts))]
    fn accepts(self, row: &RawRow, inputs: usize, c: usize, digit: usize) -> bool
        ensures { result ≡ accepts inputs self row.now c digit }
    {
        if c < inputs {
            let new = value_of(digit);
            row.symbol_at(c).fits(old_value(self.changed, c, new), new)
        } else {
            digit == 0
        }
    }
}

fn changed_of(number: usize) -> Option<Changed>
    ensures { result ≡ changed_of number }
{
    if number == 0 {
        None
    } else {
        Some(Changed {
            pin: (number - 1) / 3,
            old: value_of((number - 1) % 3),
        })
    }
}

/// Whether the row behind a row is the same.
fn is_repeated(rows: &[RawRow], i: usize) -> bool
    requires { i < length rows.now }
    ensures { IsTrue result → Repeats rows.now i }
{
    i + 1 < rows.len() && rows[i].is_same(&rows[i + 1])
}

/// Another row where one is found, else the old one.
fn replaced(old: Option<usize>, is_found: bool, other: usize) -> Option<usize>
    ensures { result ≡ cond is_found (Some other) old }
{
    if is_found { Some(other) } else { old }
}

/// No case is marked in the first words.
fn clear(seen: &mut [u64], end: usize)
    requires { end ≤ length seen.old }
    ensures long { length seen.new ≡ length seen.old }
    ensures clear { (k : ℕ) → k < end → slice_index seen.new k ≡ 0 }
{
    for k in 0..end {
        seen[k] = 0;
    }
}
