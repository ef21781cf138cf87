//! Fillings, from a bit for each place.

ghost use Rattle.std.specs.Prelude.{◌≡◌, IfOk, false, slice_index_or};
ghost use Rattle.design_circuit.specs.Filling.{IsFilling};
ghost use Rattle.wave_proved.specs.Contents.{job};

use crate::places::place_of;
use base_lists::{Items, Memory};
use design_circuit::Filling;
use std::alloc::Global;
use wave_proved::Wave;

/// The filling that gives each place its bit, and 0 past the last.
pub fn filling_of(alloc: Global, wave: &Wave<'_>, bits: &[bool]) -> Result<Filling, Memory>
    ensures { IfOk result (IsFilling (job wave.now)) }
{
    let mut places = Vec::new(alloc);
    'places: for number in 0..wave.count() {
        if bit_at(bits, number) {
            places.push(place_of(wave, number))?;
        }
    }
    Ok(Items::from_vec(places))
}

fn bit_at(bits: &[bool], number: usize) -> bool
    ensures { result ≡ slice_index_or bits.now number false }
{
    if number < bits.len() {
        bits[number]
    } else {
        false
    }
}

/// A bit for each place: those of a number for the sources, the first source the lowest, and one bit for all others.
pub fn bits_of(
    alloc: Global,
    sources: &[bool],
    number: u64,
    others: bool,
) -> Result<Vec<bool>, Memory> {
    let mut bits = Vec::with_capacity(alloc, sources.len())?;
    let mut left = number;
    for source in sources {
        let bit = if *source { take_bit(&mut left) } else { others };
        bits.push(bit)?;
    }
    Ok(bits)
}

/// Takes the lowest bit of a number away.
fn take_bit(number: &mut u64) -> bool {
    let bit = *number % 2 == 1;
    *number /= 2;
    bit
}
