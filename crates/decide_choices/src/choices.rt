//! The minimal choices of a table.

ghost use Rattle.std.specs.Prelude.{◌≡◌, ◌≤◌, ◌^◌, ◌∷◌, [], ◌↔◌, IfOk, IsTrue};
ghost use Rattle.std.specs.List.{Contains};
ghost use Rattle.design_cell.specs.Value.{bit_value};
ghost use Rattle.decide_choices.specs.Choices.{AreChoices, AreMinimalChoices, HasTable, IsValueTable, nothing_chosen};

use crate::choice::{Choice, Choices};
use crate::halves::{both_of, split_last};
use crate::joined::add_alone;
use base_lists::Memory;
use design_cell::Value;
use smallvec::SmallVec;
use std::alloc::Global;

/// The minimal choices of arguments' bits that force a bit in a table, each once. The value at number i is that of the
/// bits of i. Takes four bytes for each choice of the table and of its halves on the way, and a byte for each value, in
/// steps that double.
pub fn minimal_choices(alloc: Global, values: &[Value], bit: bool) -> Result<Vec<Choice>, Memory>
    requires { HasTable values.now }
    ensures { IfOk result (λ choices. AreMinimalChoices values.now bit choices.items) }
{
    let choices = choices_of(alloc, values, count_of(values), bit)?;
    let list = choices.into_vec()?;
    Ok(list)
}

/// How many arguments a table has.
fn count_of(values: &[Value]) -> usize
    requires { HasTable values.now }
    ensures { IsValueTable result values.now }
{
    'counts: for count in 0..13 {
        if values.len() == 1 << count {
            return count;
        }
    }
    13
}

/// The choices that force the bit in both halves, and behind them those of each half alone.
fn choices_of(alloc: Global, values: &[Value], count: usize, bit: bool) -> Result<Choices, Memory>
    requires { IsValueTable count values.now }
    ensures { IfOk result (λ choices. AreChoices values.now count bit choices.items) }
{
    if !has_bit(values, bit) {
        return Ok(SmallVec::new(alloc));
    }
    if count == 0 {
        return of_nothing(alloc);
    }
    let last = count - 1;
    let (low, high) = split_last(values, last);
    let both = both_of(alloc, low, high, bit)?;
    let mut choices = choices_of(alloc, &both, last, bit)?;
    let zeros = choices_of(alloc, low, last, bit)?;
    add_alone(&mut choices, zeros.as_slice(), high, last, bit, false)?;
    let ones = choices_of(alloc, high, last, bit)?;
    add_alone(&mut choices, ones.as_slice(), low, last, bit, true)?;
    Ok(choices)
}

/// The one choice of no arguments.
fn of_nothing(alloc: Global) -> Result<Choices, Memory>
    ensures { IfOk result (λ choices. choices.items ≡ nothing_chosen ∷ []) }
{
    let mut choices = SmallVec::new(alloc);
    choices.push(Choice { care: 0, bits: 0 })?;
    Ok(choices)
}

/// Whether some value is the bit.
fn has_bit(values: &[Value], bit: bool) -> bool
    ensures { IsTrue result ↔ Contains values.now (bit_value bit) }
{
    values.contains(&Value::from_bit(bit))
}
