//! The text of the bits that set starts make known, and of those that don't stay known.

ghost use Rattle.std.specs.Prelude.{◌≡◌, ◌++◌, IfOk, OnOk};
ghost use Rattle.std.specs.List.{AllByRecursion, flat_map};
ghost use Rattle.report_fix.specs.Gained.{AreBeside};
ghost use Rattle.report_listing.specs.Fixed as spec;
ghost use Rattle.recording_binding.specs.Binding.{FitsBinding};

use crate::places::put_bit;
use base_lists::{Memory, put, put_number};
use design_cell::Value;
use recording_binding::Binding;
use report_bits::counts_of;
use report_fix::{Fixed, Item, gained};
use std::alloc::Global;
use wave_proved::Wave;

/// A line of numbers, of how many registers are set among them, and a line for each bound bit at a moment's last round
/// that becomes known from one wave to another, or that doesn't stay known.
///
/// Takes what `gained` takes, and the text's bytes.
pub fn fix_text(
    alloc: Global,
    registers: usize,
    before: &Wave<'_>,
    after: &Wave<'_>,
    bound: &Binding,
) -> Result<Vec<u8>, Memory>
    requires waves { AreBeside before.now after.now }
    requires binding { FitsBinding before.now.design bound.now }
    ensures { IfOk result (λ text. text.items ≡ spec.fix_text registers before.now after.now bound.now) }
{
    let fixed = gained(alloc, before, after, bound)?;
    text_of(alloc, registers, before, after, &fixed)
}

#[tactic(auto, unfolding(crate::specs::Fixed::items_text))]
fn text_of(
    alloc: Global,
    registers: usize,
    before: &Wave<'_>,
    after: &Wave<'_>,
    fixed: &Fixed,
) -> Result<Vec<u8>, Memory>
    requires gained { AllByRecursion (spec.IsThere after.now) fixed.now.gained.items }
    requires lost { AllByRecursion (spec.IsThere before.now) fixed.now.lost.items }
    ensures { IfOk result (λ text. text.items
        ≡ spec.items_text registers before.now after.now fixed.now.gained.items fixed.now.lost.items) }
{
    let gained = fixed.gained.as_slice();
    let lost = fixed.lost.as_slice();
    let mut text = Vec::new(alloc);
    put(&mut text, b"fix registers ")?;
    put_number(&mut text, registers as u64)?;
    put_counts(
        &mut text,
        gained.len(),
        lost.len(),
        undecided_of(alloc, before, after)?,
    )?;
    put_items(alloc, &mut text, after, b"gained", gained)?;
    put_items(alloc, &mut text, before, b"lost", lost)?;
    Ok(text)
}

// counts = " gained " number " lost " number " undecided " number
fn put_counts(text: &mut Vec<u8>, gained: usize, lost: usize, undecided: u64) -> Result<(), Memory>
    ensures { OnOk result (text.new.items ≡ text.old.items ++ spec.counts_text gained lost undecided) }
{
    put(text, b" gained ")?;
    put_number(text, gained as u64)?;
    put(text, b" lost ")?;
    put_number(text, lost as u64)?;
    put(text, b" undecided ")?;
    put_number(text, undecided)?;
    put(text, b"\n")
}

/// How many places of both waves are undecided.
fn undecided_of(alloc: Global, before: &Wave<'_>, after: &Wave<'_>) -> Result<u64, Memory>
    ensures { IfOk result (λ count. count ≡ spec.undecided_of before.now after.now) }
{
    // With them comes the fact that neither has too many places to be counted.
    before.recall();
    after.recall();
    let first = counts_of(alloc, before)?.undecided;
    let second = counts_of(alloc, after)?.undecided;
    Ok(first + second)
}

/// The lines of items, in their order.
fn put_items(
    alloc: Global,
    text: &mut Vec<u8>,
    wave: &Wave<'_>,
    word: &[u8],
    items: &[Item],
) -> Result<(), Memory>
    requires { AllByRecursion (spec.IsThere wave.now) items.now }
    ensures { OnOk result (text.new.items ≡ text.old.items ++ flat_map (spec.item_line word.now wave.now) items.now) }
{
    'items: for item in items {
        put_item(alloc, text, wave, word, *item)?;
    }
    Ok(())
}

// line = word " " bit " " digit
fn put_item(
    alloc: Global,
    text: &mut Vec<u8>,
    wave: &Wave<'_>,
    word: &[u8],
    item: Item,
) -> Result<(), Memory>
    requires { spec.IsThere wave.now item }
    ensures { OnOk result (text.new.items ≡ text.old.items ++ spec.item_line word.now wave.now item) }
{
    put(text, word)?;
    put(text, b" ")?;
    put_bit(alloc, text, wave, item.place)?;
    put(text, b" ")?;
    put(text, &[Value::from_bit(item.value).letter()])?;
    put(text, b"\n")
}
