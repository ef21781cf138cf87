//! The bits of a world, place by place.

ghost use Rattle.std.specs.Prelude.{◌≡◌, ◌<◌, IfOk, length};
ghost use Rattle.design_circuit.specs.Filling.{IsFilling};
ghost use Rattle.design_circuit.specs.World.{bit_at, decided};
ghost use Rattle.wave_proved.specs.Contents.{job};
ghost use Rattle.wave_world.specs.View.{written_bits};

use crate::left::next_bit;
use base_lists::Memory;
use design_cell::Value;
use design_circuit::{BitSource, Place, rule_value};
use std::alloc::Global;
use wave_proved::Wave;

/// The bits of a world so far.
#[derive(Clone, Copy)]
struct Bits<'b> {
    bits: &'b [bool],
}

impl<'b> BitSource for Bits<'b> {
    ghost bits = { λ source place. bit_at source.bits.now place };

    ghost has = { λ source place. place < length source.bits.now };

    fn bit(&self, place: usize) -> bool {
        self.bits[place]
    }
}

/// The bits of the written places in the world of a filling, in place order.
pub fn bits_of(alloc: Global, wave: &Wave<'_>, filling: &[Place]) -> Result<Vec<bool>, Memory>
    requires { IsFilling (job wave.now) filling.now }
    ensures { IfOk result (λ bits. bits.items ≡ written_bits wave.now filling.now) }
{
    let circuit = wave.circuit();
    let count = wave.count();
    let mut bits = Vec::with_capacity(alloc, count)?;
    let mut left = filling;
    'places: for place in 0..count {
        let value = rule_value(&circuit, wave, &Bits { bits: &bits }, place);
        let (bit, behind) = next_bit(&circuit, left, place);
        bits.push(decided_bit(value, bit))?;
        left = behind;
    }
    Ok(bits)
}

fn decided_bit(value: Value, bit: bool) -> bool
    ensures { result ≡ decided value bit }
{
    match value {
        Value::Zero => false,
        Value::One => true,
        Value::X => bit,
        Value::Z => bit,
    }
}
