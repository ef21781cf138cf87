//! The lines of the bits and of the sources.

ghost use Rattle.std.specs.Prelude.{◌≡◌, ◌++◌, OnOk};
ghost use Rattle.std.specs.List.{AllByRecursion, flat_map};
ghost use Rattle.report_listing.specs.Blame as spec;

use crate::places::{put_bit, put_filling, put_place};
use base_lists::{Memory, put, put_number};
use design_circuit::Place;
use report_blame::Blamed;
use std::alloc::Global;
use wave_proved::Wave;

/// The lines of the bits, in their order.
pub fn put_bits(
    alloc: Global,
    text: &mut Vec<u8>,
    wave: &Wave<'_>,
    bits: &[Blamed],
) -> Result<(), Memory>
    requires { AllByRecursion (spec.HasPlaces wave.now) bits.now }
    ensures { OnOk result (text.new.items ≡ text.old.items ++ flat_map (spec.blamed_line wave.now) bits.now) }
{
    'bits: for bit in bits {
        put_blamed(alloc, text, wave, bit)?;
    }
    Ok(())
}

// line = bit " by " place " with" filling
fn put_blamed(
    alloc: Global,
    text: &mut Vec<u8>,
    wave: &Wave<'_>,
    bit: &Blamed,
) -> Result<(), Memory>
    requires { spec.HasPlaces wave.now bit.now }
    ensures { OnOk result (text.new.items ≡ text.old.items ++ spec.blamed_line wave.now bit.now) }
{
    put_bit(alloc, text, wave, bit.place)?;
    put(text, b" by ")?;
    put_place(alloc, text, wave, bit.source)?;
    put(text, b" with")?;
    put_filling(text, bit.others.as_slice())?;
    put(text, b"\n")
}

/// The lines of the sources, in their order.
pub fn put_sources(
    alloc: Global,
    text: &mut Vec<u8>,
    wave: &Wave<'_>,
    table: &[(Place, u64)],
) -> Result<(), Memory>
    requires { AllByRecursion (spec.HasSource wave.now) table.now }
    ensures { OnOk result (text.new.items ≡ text.old.items ++ flat_map (spec.source_line wave.now) table.now) }
{
    'sources: for row in table {
        put_source(alloc, text, wave, *row)?;
    }
    Ok(())
}

// line = "source " place " bits " number
fn put_source(
    alloc: Global,
    text: &mut Vec<u8>,
    wave: &Wave<'_>,
    row: (Place, u64),
) -> Result<(), Memory>
    requires { spec.HasSource wave.now row }
    ensures { OnOk result (text.new.items ≡ text.old.items ++ spec.source_line wave.now row) }
{
    put(text, b"source ")?;
    put_place(alloc, text, wave, row.0)?;
    put(text, b" bits ")?;
    put_number(text, row.1)?;
    put(text, b"\n")
}
