//! Tables by their halves: those in which the last argument is 0 and 1.

ghost use Rattle.std.specs.Prelude.{◌≡◌, ◌+◌, ◌<◌, ◌≤◌, ◌^◌, ◌↔◌, IfOk, IsTrue, drop, length, take};
ghost use Rattle.design_cell.specs.Value.{bit_value};
ghost use Rattle.decide_choices.specs.Choices.{ForcesIn};
ghost use Rattle.decide_choices.specs.Halves.{AreBoth, IsAgreed, value_at};

use crate::choice::Choice;
use base_lists::Memory;
use design_cell::Value;
use std::alloc::Global;

/// Whether a choice forces a bit in a table. Looks at the values that agree with the choice.
pub fn forces(values: &[Value], count: usize, choice: Choice, bit: bool) -> bool
    requires few { count ≤ 13 }
    requires long { length values.now ≡ 2 ^ count }
    ensures { IsTrue result ↔ ForcesIn values.now count bit choice }
{
    if count == 0 {
        return first_is(values, bit);
    }
    let last = count - 1;
    let (low, high) = split_last(values, last);
    if !choice.has(last) {
        forces(low, last, choice, bit) && forces(high, last, choice, bit)
    } else if choice.bit(last) {
        forces(high, last, choice, bit)
    } else {
        forces(low, last, choice, bit)
    }
}

/// The halves of a table, in which the last argument is 0 and 1.
#[tactic(auto, using(crate::proofs::ChoiceBits::power_next))]
pub fn split_last(values: &[Value], last: usize) -> (&[Value], &[Value])
    requires { length values.now ≡ 2 ^ (last + 1) }
    ensures low { result.0.now ≡ take (2 ^ last) values.now }
    ensures high { result.1.now ≡ drop (2 ^ last) values.now }
    ensures low_long { length result.0.now ≡ 2 ^ last }
    ensures high_long { length result.1.now ≡ 2 ^ last }
{
    values.split_at(values.len() / 2)
}

fn first_is(values: &[Value], bit: bool) -> bool
    requires { 0 < length values.now }
    ensures { IsTrue result ↔ (value_at values.now 0 ≡ bit_value bit) }
{
    values[0] == Value::from_bit(bit)
}

/// A table that has the bit just where two tables have it, a byte a value.
#[tactic(auto, using(crate::proofs::AgreedTables::agreed_more))]
pub fn both_of(
    alloc: Global,
    low: &[Value],
    high: &[Value],
    bit: bool,
) -> Result<Vec<Value>, Memory>
    requires { length high.now ≡ length low.now }
    ensures long { IfOk result (λ both. length both.items ≡ length low.now) }
    ensures both { IfOk result (λ both. AreBoth bit low.now high.now both.items) }
{
    let mut both = Vec::with_capacity(alloc, low.len())?;
    'values: for i in 0..low.len() {
        both.push(agreed(low[i], high[i], bit))?;
    }
    Ok(both)
}

/// The bit where two values are it, else x.
fn agreed(low: Value, high: Value, bit: bool) -> Value
    ensures { IsAgreed bit low high result }
{
    let value = Value::from_bit(bit);
    if low == value && high == value {
        value
    } else {
        Value::X
    }
}
