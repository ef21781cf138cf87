//! The bound bits that become known, and those that don't stay known.

ghost use Rattle.std.specs.Prelude.{◌≡◌, [], ◌∷◌, ◌++◌, IfOk, OnOk, map};
ghost use Rattle.std.specs.List.{filter};
ghost use Rattle.design_cell.specs.Value.{is_one};
ghost use Rattle.recording_binding.specs.Binding.{FitsBinding};
ghost use Rattle.recording_binding.specs.BoundBits.{IsBitOf};
ghost use Rattle.report_bits.specs.BoundPlaces.{HasBit};
ghost use Rattle.report_fix.specs.Gained as spec;

use base_lists::Memory;
use design_cell::Value;
use design_circuit::{Mark, Place, Written};
use recording_binding::{Binding, BoundBit, BoundBits};
use report_bits::bit_place;
use std::alloc::Global;
use wave_proved::Wave;

/// A bound bit at a moment's last round, with a value.
#[derive(Clone, Copy, Debug, PartialEq, Eq)]
pub struct Item {
    /// The variable's number in the recording.
    pub variable: u32,
    /// How many of its bits stand on the left.
    pub bit: u32,
    pub place: Place,
    pub value: bool,
}

/// What becomes known, with its new value, and what doesn't stay known, with its old one, in the order of a report.
#[derive(Drop)]
pub struct Fixed {
    pub gained: Vec<Item>,
    pub lost: Vec<Item>,
}

/// What is gained and lost from one wave to another: the bound bits at the last rounds of moments that are certain
/// after and not before, and those that were certain before and aren't certain with that value after. Takes 20 bytes
/// for each, and time linear in the bits of all moments.
pub fn gained(
    alloc: Global,
    before: &Wave<'_>,
    after: &Wave<'_>,
    bound: &Binding,
) -> Result<Fixed, Memory>
    requires waves { spec.AreBeside before.now after.now }
    requires binding { FitsBinding before.now.design bound.now }
    ensures gained { IfOk result (λ fixed. fixed.gained.items ≡ spec.gained_items before.now after.now bound.now) }
    ensures lost { IfOk result (λ fixed. fixed.lost.items ≡ spec.lost_items before.now after.now bound.now) }

    // set starts only choose
    ensures kept { spec.OnlyChooses before.now after.now → IfOk result (λ fixed. fixed.lost.items ≡ []) }
{
    // With them comes the fact that both waves are sound.
    before.recall();
    after.recall();
    let mut fixed = Fixed {
        gained: Vec::new(alloc),
        lost: Vec::new(alloc),
    };
    let mut bits = BoundBits::new(before.stim(), bound.bound.as_slice());
    'bits: while let Some(bit) = bits.next() {
        add_bit(&mut fixed, before, after, bit)?;
    }
    Ok(fixed)
}

/// Adds a bit where it is gained or lost.
fn add_bit(
    fixed: &mut Fixed,
    before: &Wave<'_>,
    after: &Wave<'_>,
    bit: BoundBit,
) -> Result<(), Memory>
    requires first { HasBit before.now bit }
    requires second { HasBit after.now bit }
    ensures gained { OnOk result (fixed.new.gained.items ≡ fixed.old.gained.items
        ++ map (spec.item_in after.now) (filter (spec.is_gained before.now after.now) (bit ∷ []))) }
    ensures lost { OnOk result (fixed.new.lost.items ≡ fixed.old.lost.items
        ++ map (spec.item_in before.now) (filter (spec.is_lost before.now after.now) (bit ∷ []))) }
{
    let old = bit_written(before, bit);
    let new = bit_written(after, bit);
    if turns_known(old.mark, new.mark) {
        fixed.gained.push(item_in(after, bit))?;
    }
    if turns_open(old, new) {
        fixed.lost.push(item_in(before, bit))?;
    }
    Ok(())
}

/// What a wave has at a bound bit's place.
fn bit_written(wave: &Wave<'_>, bit: BoundBit) -> Written
    requires { HasBit wave.now bit }
    ensures { result ≡ spec.bit_written wave.now bit }
{
    let place = bit_place(wave.stim(), bit);
    wave.written(wave.circuit().number_of(place))
}

/// A bit with its value in a wave.
fn item_in(wave: &Wave<'_>, bit: BoundBit) -> Item
    requires { HasBit wave.now bit }
    ensures { result ≡ spec.item_in wave.now bit }
{
    let place = bit_place(wave.stim(), bit);
    Item {
        variable: bit.variable,
        bit: bit.bit,
        place,
        value: is_one(wave.value(place)),
    }
}

fn is_one(value: Value) -> bool
    ensures { result ≡ is_one value }
{
    matches!(value, Value::One)
}

fn turns_known(before: Mark, after: Mark) -> bool
    ensures { result ≡ spec.turns_known before after }
{
    matches!(after, Mark::Certain) && !matches!(before, Mark::Certain)
}

fn turns_open(before: Written, after: Written) -> bool
    ensures { result ≡ spec.turns_open before after }
{
    matches!(before.mark, Mark::Certain)
        && !(matches!(after.mark, Mark::Certain) && before.value == after.value)
}
