//! Two values in a byte.

ghost use Rattle.std.specs.Prelude.{◌≡◌, ◌+◌, ◌*◌, ◌≤◌};
ghost use Rattle.design_circuit.specs.History.{two_bits, value_of_bits};

use design_cell::Value;

/// The byte of a place that shows and keeps x.
pub(crate) const BLANK: u8 = 10;

/// The byte of a place that shows and keeps these values.
pub(crate) fn byte_of(shown: Value, kept: Value) -> u8
    ensures { result ≡ two_bits shown + 4 * two_bits kept }
{
    two_bits_of(shown) + 4 * two_bits_of(kept)
}

fn two_bits_of(value: Value) -> u8
    ensures bits { result ≡ two_bits value }
    ensures few { result ≤ 3 }
{
    match value {
        Value::Zero => 0,
        Value::One => 1,
        Value::X => 2,
        Value::Z => 3,
    }
}

pub(crate) fn value_of_two_bits(bits: u8) -> Value
    ensures { result ≡ value_of_bits bits }
{
    match bits {
        0 => Value::Zero,
        1 => Value::One,
        2 => Value::X,
        _ => Value::Z,
    }
}
