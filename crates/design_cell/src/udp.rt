//! User-defined primitives: tables that meet IEEE 1364-2005, clause 8.

ghost use Rattle.std.specs.Prelude.{◌≡◌, ◌↔◌, ◌+◌, ◌<◌, ◌≤◌, ◌==◌, ◌&&◌, true, false, length, slice_index_or};
ghost use Rattle.std.specs.Prelude.{slice_set, take, Some, IfOk, IfErr, IfSome, IsTrue};
ghost use Rattle.std.specs.Int.{bit_at};
ghost use Rattle.design_cell.specs.Table.{table_of, look, change, IsLook, IsChange};
ghost use Rattle.design_cell.specs.Next.{has_changed, is_in_group, AreUnchanged, next};
ghost use Rattle.design_cell.specs.Pass.{Passes};
ghost use Rattle.design_cell.specs.Value.{IsKnown};
ghost use Rattle.design_cell.specs.declared.value.Value.{Value as a_value};
ghost use Rattle.design_cell.specs.declared.value.Value.TheVariants.{X};
ghost use Rattle.design_cell.specs.Symbol.{differ as differ_values};
ghost use Rattle.design_cell.specs.Clock.{pin_of, pins_of, is_known_other, acts, acts_at, is_clock, IsClock};
ghost use Rattle.design_cell.specs.Deciding.{IsLastRow, IsRowOf, IsRowOfChange, numbered};
ghost use Rattle.design_cell.specs.Hold.{agreed, hold, level_output, GivesByLevel, HoldsAt};
ghost use Rattle.design_cell.specs.Index.{output_at};
ghost use Rattle.design_cell.specs.Refusal.{IsLegal, IsRefusal, IsReported};

use crate::index::{Block, differ, make_blocks, search};
use crate::refusal::UdpErr;
use crate::row::{Changed, RawRow};
use crate::row_checks::check_rows;
use crate::value::Value;
use std::alloc::{AllocError, Global};
use std::marker::Model;

/// A user-defined primitive that was found legal, with an index of its rows.
#[derive(Debug, Drop)]
pub struct Udp {
    sequential: bool,
    inputs: usize,
    rows: Vec<RawRow>,
    start: Value,
    blocks: Vec<Block>,
}

/// A state of a register as its pins change, and the row that gave it, the first being 1, if one did.
#[derive(Clone, Copy, Debug)]
struct Changing {
    state: Value,
    row: Option<usize>,
}

impl Model for Udp {
    ghost use Rattle.design_cell.specs.Table.{Table, table_of};
    ghost use Rattle.design_cell.specs.Index.{Holds};

    ghost Value = { Table };

    ghost view = { λ udp. table_of udp.sequential udp.inputs udp.rows.items udp.start };

    ghost invariant = { λ udp. Holds udp.sequential udp.inputs udp.rows.items udp.blocks.items };
}

impl Udp {
    /// The primitive of these rows, or the first refusal in the order of `UdpErr`. Memory is taken, and may be wanting,
    /// for legal rows only: a copy of the rows, and 872 bytes for each 64 of them.
    pub fn build(
        alloc: Global,
        sequential: bool,
        inputs: usize,
        rows: &[RawRow],
        start: Value,
    ) -> Result<Udp, UdpErr>
        requires { 1 ≤ inputs }
        ensures built { IfOk result (λ udp. udp ≡ table_of sequential inputs rows.now start) }
        ensures legal { IfOk result (λ _. IsLegal sequential inputs rows.now) }
        ensures refused { IfErr result (λ refusal. IsRefusal sequential inputs rows.now refusal) }
        ensures exact { IsReported sequential inputs rows.now result }
    {
        check_rows(sequential, inputs, rows)?;
        let copies = copy_rows(alloc, rows)?;
        let blocks = make_blocks(alloc, &copies)?;
        Ok(Udp {
            sequential,
            inputs,
            rows: copies,
            start,
            blocks,
        })
    }

    /// Whether it is sequential.
    pub fn sequential(&self) -> bool
        ensures { result ≡ self.now.sequential }
    {
        self.sequential
    }

    /// How many inputs it has.
    pub fn inputs(&self) -> usize
        ensures { result ≡ self.now.inputs }
    {
        self.inputs
    }

    /// The state that a register of it starts with.
    pub fn start(&self) -> Value
        ensures { result ≡ self.now.start }
    {
        self.start
    }

    /// The value of a combinational primitive.
    pub fn look(&self, pins: &[Value]) -> Value
        requires kind { self.now.sequential ≡ false }
        requires pins { length pins.now ≡ self.now.inputs }
        ensures value { result ≡ look self.now pins.now }
        ensures any_row { IsLook self.now pins.now result }
    {
        // a legal combinational primitive has level rows only
        self.output(search(&self.blocks, None, pins, Value::X).level, Value::X)
    }

    /// The state of a sequential primitive after one pin went from its old value to its value in `pins`.
    pub fn change(&self, pins: &[Value], pin: usize, old: Value, q: Value) -> Value
        requires kind { self.now.sequential ≡ true }
        requires pins { length pins.now ≡ self.now.inputs }
        requires pin { pin < self.now.inputs }
        ensures value { result ≡ change self.now pins.now pin old q }
        ensures any_row { IsChange self.now pins.now pin old q result }
    {
        self.changed(pins, pin, old, q).state
    }

    /// The least row that matches the pins of a combinational primitive, the first being 1; none exactly where no row
    /// does.
    pub fn row_of(&self, pins: &[Value]) -> Option<usize>
        requires kind { self.now.sequential ≡ false }
        requires pins { length pins.now ≡ self.now.inputs }
        ensures { IsRowOf self.now pins.now result }
    {
        self.numbered(search(&self.blocks, None, pins, Value::X).level)
    }

    /// The least level row that matches after one pin went from its old value to its value in `pins`, or the least edge
    /// row where no level row does, the first being 1; none exactly where no row matches.
    pub fn row_of_change(&self, pins: &[Value], pin: usize, old: Value, q: Value) -> Option<usize>
        requires kind { self.now.sequential ≡ true }
        requires pins { length pins.now ≡ self.now.inputs }
        requires pin { pin < self.now.inputs }
        ensures { IsRowOfChange self.now pins.now pin old q result }
    {
        self.changed(pins, pin, old, q).row
    }

    /// The state after one pin went from its old value to its value in `pins`, and the row that gave it.
    fn changed(&self, pins: &[Value], pin: usize, old: Value, q: Value) -> Changing
        requires kind { self.now.sequential ≡ true }
        requires pins { length pins.now ≡ self.now.inputs }
        requires pin { pin < self.now.inputs }
        ensures value { result.state ≡ change self.now pins.now pin old q }
        ensures any_row { IsChange self.now pins.now pin old q result.state }
        ensures row { IsRowOfChange self.now pins.now pin old q result.row }
    {
        let found = search(&self.blocks, Some(Changed { pin, old }), pins, q);
        let row = found.row();
        Changing {
            state: self.output(row, q),
            row: self.numbered(row),
        }
    }

    /// The number of a row from 1.
    fn numbered(&self, row: Option<usize>) -> Option<usize>
        requires { IfSome row (λ k. k < length self.now.rows) }
        ensures { result ≡ numbered row }
    {
        let _count = self.rows.len();
        match row {
            None => None,
            Some(k) => Some(k + 1),
        }
    }

    /// The output of a row, x where there is none.
    fn output(&self, row: Option<usize>, q: Value) -> Value
        requires { IfSome row (λ k. k < length self.now.rows) }
        ensures { result ≡ output_at self.now.rows row q }
    {
        match row {
            None => Value::X,
            Some(k) => self.rows[k].output.output(q),
        }
    }

    /// The state of a register after its pins went from old values to new ones: the clock pins first, in port order,
    /// and then the others. Bit i of `clocks` stands for pin i.
    pub fn next(&self, clocks: u16, old: &[Value], new: &[Value], q: Value) -> Value
        requires kind { self.now.sequential ≡ true }
        requires old { length old.now ≡ self.now.inputs }
        requires new { length new.now ≡ self.now.inputs }
        ensures value { result ≡ next self.now clocks old.now new.now q }
        ensures unchanged { AreUnchanged self.now.inputs old.now new.now → result ≡ q }
    {
        self.next_by(clocks, old, new, q).state
    }

    /// The row that gave the state at the last of the changes that `next` makes, the first row being 1; none exactly
    /// where no pin changed or no row matched there.
    pub fn last_row(&self, clocks: u16, old: &[Value], new: &[Value], q: Value) -> Option<usize>
        requires kind { self.now.sequential ≡ true }
        requires old { length old.now ≡ self.now.inputs }
        requires new { length new.now ≡ self.now.inputs }
        ensures { IsLastRow self.now clocks old.now new.now q result }
    {
        self.next_by(clocks, old, new, q).row
    }

    /// The state after all changes, and the row that gave it at the last of them.
    fn next_by(&self, clocks: u16, old: &[Value], new: &[Value], q: Value) -> Changing
        requires kind { self.now.sequential ≡ true }
        requires old { length old.now ≡ self.now.inputs }
        requires new { length new.now ≡ self.now.inputs }
        ensures value { result.state ≡ next self.now clocks old.now new.now q }
        ensures row { IsLastRow self.now clocks old.now new.now q result.row }
    {
        let mut buffer = [Value::X; 10];
        let pins = &mut buffer[..self.inputs];
        pins.copy_from_slice(old);
        let start = Changing {
            state: q,
            row: None,
        };
        let middle = self.pass(pins, true, clocks, old, new, start);
        self.pass(pins, false, clocks, old, new, middle)
    }

    /// The changed clock pins, or the changed others, take their new values one by one.
    fn pass(
        &self,
        pins: &mut [Value],
        clock: bool,
        clocks: u16,
        old: &[Value],
        new: &[Value],
        from: Changing,
    ) -> Changing
        requires kind { self.now.sequential ≡ true }
        requires pins { length pins.old ≡ self.now.inputs }
        requires old { length old.now ≡ self.now.inputs }
        requires new { length new.now ≡ self.now.inputs }
        requires few { length pins.old ≤ 10 }
        ensures { Passes self.now clock clocks old.now new.now from pins.old pins.new result }
    {
        let mut reached = from;
        for pin in 0..pins.len() {
            if is_turn(clock, clocks, pin, old[pin], new[pin]) {
                reached = self.turn(pins, old, new, pin, reached.state);
            }
        }
        reached
    }

    /// A pin takes its new value.
    fn turn(
        &self,
        pins: &mut [Value],
        old: &[Value],
        new: &[Value],
        pin: usize,
        q: Value,
    ) -> Changing
        requires kind { self.now.sequential ≡ true }
        requires pins { length pins.old ≡ self.now.inputs }
        requires old { length old.now ≡ self.now.inputs }
        requires new { length new.now ≡ self.now.inputs }
        requires pin { pin < self.now.inputs }
        ensures pins { pins.new ≡ slice_set pins.old pin (slice_index_or new.now pin X) }
        ensures state { result.state ≡ change self.now pins.new pin (slice_index_or old.now pin X) q }
        ensures row { IsRowOfChange self.now pins.new pin (slice_index_or old.now pin X) q result.row }
    {
        pins[pin] = new[pin];
        self.changed(pins, pin, old[pin], q)
    }

    /// The bit at which the pins hold a register whatever its state is: where at the state 0 and at the state 1 a level
    /// row matches them and gives it. Else it is x.
    #[tactic(auto, unfolding(crate::specs::Hold::hold))]
    pub fn hold(&self, pins: &[Value]) -> Value
        requires pins { length pins.now ≡ self.now.inputs }
        ensures value { result ≡ hold self.now pins.now }
        ensures exact { (bit : a_value) → IsKnown bit → (result ≡ bit) ↔ HoldsAt self.now pins.now bit }
    {
        let zero = self.level_output(pins, Value::Zero);
        if zero.is_known() {
            agreed(zero, self.level_output(pins, Value::One))
        } else {
            Value::X
        }
    }

    /// The output of the level row that matches at a state, x where none does.
    fn level_output(&self, pins: &[Value], q: Value) -> Value
        requires { length pins.now ≡ self.now.inputs }
        ensures value { result ≡ level_output self.now pins.now q }
        ensures exact { (bit : a_value) → IsKnown bit → (result ≡ bit) ↔ GivesByLevel self.now pins.now q bit }
    {
        self.output(search(&self.blocks, None, pins, q).level, q)
    }

    /// Whether a pin is a clock pin: whether, for some 0 or 1 on every pin that is not dead and on the state, a change
    /// of it between 0 and 1 matches no level row and gives a known value other than the state. Bit i of `dead` stands
    /// for pin i.
    pub fn is_clock(&self, dead: u16, pin: usize) -> bool
        requires kind { self.now.sequential ≡ true }
        requires pin { pin < self.now.inputs }
        ensures value { result ≡ is_clock self.now dead pin }
        ensures exact { IsTrue result ↔ IsClock self.now dead pin }
    {
        self.acts_at_some(dead, pin)
    }

    /// Tries each choice of 0 and 1 in turn.
    #[tactic(auto, unfolding(crate::specs::Clock::is_clock))]
    fn acts_at_some(&self, dead: u16, pin: usize) -> bool
        requires kind { self.now.sequential ≡ true }
        requires pin { pin < self.now.inputs }
        ensures { result ≡ is_clock self.now dead pin }
    {
        let mut any = false;
        let end: u16 = 1 << (self.inputs + 1);
        for choice in 0..end {
            any = any || self.acts_at(dead, pin, choice);
        }
        !bit(dead, pin) && any
    }

    #[tactic(auto, unfolding(crate::specs::Clock::acts_at))]
    fn acts_at(&self, dead: u16, pin: usize, choice: u16) -> bool
        requires kind { self.now.sequential ≡ true }
        requires pin { pin < self.now.inputs }
        ensures { result ≡ acts_at self.now dead pin choice }
    {
        let values = pin_values(self.inputs, dead, choice);
        self.acts(
            &values[..self.inputs],
            pin,
            Value::from_bit(!bit(choice, pin)),
            Value::from_bit(bit(choice, self.inputs)),
        )
    }

    fn acts(&self, pins: &[Value], pin: usize, old: Value, q: Value) -> bool
        requires kind { self.now.sequential ≡ true }
        requires pins { length pins.now ≡ self.now.inputs }
        requires pin { pin < self.now.inputs }
        ensures { result ≡ acts self.now pins.now pin old q }
    {
        let found = search(&self.blocks, Some(Changed { pin, old }), pins, q);
        found.level.is_none() && is_known_other(self.output(found.edge, q), q)
    }
}

fn copy_rows(alloc: Global, rows: &[RawRow]) -> Result<Vec<RawRow>, AllocError>
    ensures { IfOk result (λ copies. copies.items ≡ rows.now) }
{
    let mut copies = Vec::new(alloc);
    for row in rows {
        copies.push(row.copied(alloc)?)?;
    }
    Ok(copies)
}

/// Whether a pin changes in a pass.
fn is_turn(clock: bool, clocks: u16, pin: usize, old: Value, new: Value) -> bool
    requires { pin < 16 }
    ensures { result ≡ (is_in_group clock clocks pin && differ_values old new) }
{
    is_in_group(clock, clocks, pin) && differ(old, new)
}

fn is_in_group(clock: bool, clocks: u16, pin: usize) -> bool
    requires { pin < 16 }
    ensures { result ≡ is_in_group clock clocks pin }
{
    let is_clock = bit(clocks, pin);
    if clock { is_clock } else { !is_clock }
}

/// The pins of a choice, in the first places.
fn pin_values(inputs: usize, dead: u16, choice: u16) -> [Value; 10]
    requires { inputs ≤ 10 }
    ensures long { length result ≡ 10 }
    ensures pins { take inputs result ≡ pins_of inputs dead choice }
{
    let mut values = [Value::X; 10];
    for pin in 0..inputs {
        values[pin] = pin_of(dead, choice, pin);
    }
    values
}

fn pin_of(dead: u16, choice: u16, pin: usize) -> Value
    requires { pin < 16 }
    ensures { result ≡ pin_of dead choice pin }
{
    if bit(dead, pin) {
        Value::X
    } else {
        Value::from_bit(bit(choice, pin))
    }
}

fn bit(word: u16, place: usize) -> bool
    requires { place < 16 }
    ensures { result ≡ (bit_at word place == 1) }
{
    word >> place & 1 == 1
}

fn agreed(value: Value, other: Value) -> Value
    ensures { result ≡ agreed value other }
{
    match value {
        Value::Zero => match other {
            Value::Zero => Value::Zero,
            _ => Value::X,
        },
        Value::One => match other {
            Value::One => Value::One,
            _ => Value::X,
        },
        Value::X => Value::X,
        Value::Z => Value::X,
    }
}

fn is_known_other(value: Value, q: Value) -> bool
    ensures { result ≡ is_known_other value q }
{
    match value {
        Value::Zero => match q {
            Value::One => true,
            _ => false,
        },
        Value::One => match q {
            Value::Zero => true,
            _ => false,
        },
        Value::X => false,
        Value::Z => false,
    }
}
