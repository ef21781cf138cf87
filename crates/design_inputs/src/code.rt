//! A value as a code of two bits.

ghost use Rattle.std.specs.Prelude.{◌≡◌};
ghost use Rattle.design_inputs.specs.Codes.{value_of_code};

use design_cell::Value;

/// The code of a value, 0 to 3.
pub fn code_of(value: Value) -> u8
    ensures { value_of_code result ≡ value }
{
    match value {
        Value::Zero => 0,
        Value::One => 1,
        Value::X => 2,
        Value::Z => 3,
    }
}

/// The value that a code stands for.
pub fn value_of(code: u8) -> Value
    ensures { result ≡ value_of_code code }
{
    match code {
        0 => Value::Zero,
        1 => Value::One,
        2 => Value::X,
        _ => Value::Z,
    }
}
