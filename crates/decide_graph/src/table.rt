//! Tables of the rule of a place, and its essential arguments.

ghost use Rattle.std.specs.Prelude.{◌≡◌, ℕ, ◌+◌, ◌<◌, ◌≤◌, ◌^◌, length, slice_index_or, IfOk, OnOk};
ghost use Rattle.std.specs.List.Sorted.{IsStrictlyIncreasing};
ghost use Rattle.design_cell.specs.declared.value.Value.{Value as AnyValue};
ghost use Rattle.law_model.specs.Cone.{are_alike};
ghost use Rattle.law_model.specs.Mask.{mask_of, masked};
ghost use Rattle.decide_graph.specs.InWave.{IsInReach, IsTableIn, essentials_in, uncertain_in};
ghost use Rattle.decide_graph.specs.Table.{IsCut, Rests, differs_at};

use base_lists::Memory;
use decide_nodes::Wave;
use design_cell::Value;
use design_circuit::{BitSource, rule_value};
use std::alloc::Global;
use wave_class::{ArgumentsByNumber, Assigned, Numbered};

/// Finds the essential arguments of a place, given its uncertain ones, with its table over the uncertain ones: one
/// evaluation of the rule for each choice of their bits.
pub fn essential_places(
    wave: &Wave<'_>,
    place: usize,
    uncertain: &[usize],
    values: &mut Vec<Value>,
) -> Result<ArgumentsByNumber, Memory>
    requires reach { IsInReach wave.now place }
    requires few { length uncertain.now ≤ 13 }
    requires uncertain { uncertain.now ≡ uncertain_in wave.now place }
    ensures table { OnOk result (IsTableIn wave.now place uncertain.now values.new.items) }
    ensures places { IfOk result (λ essential. essential ≡ essentials_in wave.now place) }
{
    wave.recall();
    fill_table(wave, place, uncertain, values)?;
    let mut essential = ArgumentsByNumber::new();
    'bits: for (bit, argument) in uncertain.iter().enumerate() {
        if rests_on(values.as_slice(), bit) {
            essential.push(*argument);
        }
    }
    Ok(essential)
}

/// Makes the table of a place over some places.
fn fill_table(
    wave: &Wave<'_>,
    place: usize,
    places: &[usize],
    values: &mut Vec<Value>,
) -> Result<(), Memory>
    requires reach { IsInReach wave.now place }
    requires few { length places.now ≤ 13 }
    ensures { OnOk result (IsTableIn wave.now place places.now values.new.items) }
{
    let circuit = wave.circuit();
    let end: u16 = 1 << places.len();
    values.clear();
    'numbers: for number in 0..end {
        let bits = Assigned {
            certain: wave,
            chosen: Numbered { places, number },
        };
        values.push(rule_value(&circuit, wave, &bits, place))?;
    }
    Ok(())
}

/// Whether the values of a table rest on a bit of their numbers.
fn rests_on(values: &[Value], bit: usize) -> bool
    requires bit { bit < 13 }
    requires long { 2 ^ bit ≤ length values.now }
    ensures { Rests values.now bit result }
{
    let step: usize = 1 << bit;
    'numbers: for number in 0..values.len() - step {
        if differs_at(values, bit, number) {
            return true;
        }
    }
    false
}

/// Whether a bit is 0 in a number, and the value differs from that where it is 1.
fn differs_at(values: &[Value], bit: usize, number: usize) -> bool
    requires bit { bit < 13 }
    requires within { number + 2 ^ bit < length values.now }
    ensures { result ≡ differs_at values.now bit number }
{
    let step: usize = 1 << bit;
    (number >> bit) % 2 == 0 && !are_alike(values[number], values[number + step])
}

fn are_alike(x: Value, y: Value) -> bool
    ensures { result ≡ are_alike x y }
{
    x == y
}

/// The table over some places that are kept of it: the same where all of them are.
pub fn kept_table(
    alloc: Global,
    places: &[usize],
    kept: &[usize],
    values: &[Value],
) -> Result<Vec<Value>, Memory>
    requires few { length places.now ≤ 13 }
    requires few_kept { length kept.now ≤ 13 }
    requires rising { IsStrictlyIncreasing places.now }
    requires long { length values.now ≡ 2 ^ length places.now }
    ensures { IfOk result (λ cut. IsCut places.now kept.now values.now cut.items) }
{
    if kept == places {
        return whole_table(alloc, places, values);
    }
    cut_table(alloc, places, kept, values)
}

fn whole_table(alloc: Global, places: &[usize], values: &[Value]) -> Result<Vec<Value>, Memory>
    requires rising { IsStrictlyIncreasing places.now }
    requires long { length values.now ≡ 2 ^ length places.now }
    ensures { IfOk result (λ cut. IsCut places.now places.now values.now cut.items) }
{
    let whole = values.to_vec(alloc)?;
    Ok(whole)
}

/// Cuts a table down to some of its places.
fn cut_table(
    alloc: Global,
    places: &[usize],
    kept: &[usize],
    values: &[Value],
) -> Result<Vec<Value>, Memory>
    requires few { length places.now ≤ 13 }
    requires few_kept { length kept.now ≤ 13 }
    requires long { length values.now ≡ 2 ^ length places.now }
    ensures { IfOk result (λ cut. IsCut places.now kept.now values.now cut.items) }
{
    let end: u16 = 1 << kept.len();
    let mut cut = Vec::with_capacity(alloc, end as usize)?;
    'numbers: for number in 0..end {
        cut.push(value_at(places, values, kept, number))?;
    }
    Ok(cut)
}

/// The value where some places have the bits of a number and the others have 0.
fn value_at(places: &[usize], values: &[Value], kept: &[usize], number: u16) -> Value
    requires few { length places.now ≤ 13 }
    requires long { length values.now ≡ 2 ^ length places.now }
    ensures { result ≡ slice_index_or values.now (mask_of places.now (masked kept.now number)) Value.X }
{
    let bits = Numbered {
        places: kept,
        number,
    };
    values[number_of(places, &bits)]
}

/// The number whose bits are those of some places.
fn number_of<B: BitSource>(places: &[usize], bits: &B) -> usize
    requires few { length places.now ≤ 13 }
    requires bits { (k : ℕ) → B.has bits.now k }
    ensures { result ≡ mask_of places.now (B.bits bits.now) }
{
    match places {
        [] => 0,
        [first, rest @ ..] => {
            let above = 2 * number_of(rest, bits);
            if bits.bit(*first) { above + 1 } else { above }
        }
    }
}
