//! The four values of a net.

ghost use Rattle.std.specs.Prelude.{◌≡◌, ◌↔◌, ◌∷◌, [], IsTrue, Some};
ghost use Rattle.design_cell.specs.Value.{IsKnown, bit_value, complement_of, letter_of, read};

use std::fmt;

/// The value of a net: 0, 1, unknown or high impedance. Unknown where none is given.
#[derive(Clone, Copy, Debug, Default, PartialEq, Eq, Hash)]
pub enum Value {
    Zero,
    One,
    #[default]
    X,
    Z,
}

impl Value {
    /// The value of a bit.
    pub fn from_bit(bit: bool) -> Value
        ensures { result ≡ bit_value bit }
    {
        if bit { Value::One } else { Value::Zero }
    }

    /// Whether it is 0 or 1.
    pub fn is_known(self) -> bool
        ensures { IsTrue result ↔ IsKnown self }
    {
        matches!(self, Value::Zero | Value::One)
    }

    /// What a pin reads: x for z.
    pub fn read(self) -> Value
        ensures { result ≡ read self }
    {
        match self {
            Value::Z => Value::X,
            other => other,
        }
    }

    /// What an inverting gate makes of it: x of x and of z.
    pub fn complement(self) -> Value
        ensures { result ≡ complement_of self }
    {
        match self {
            Value::Zero => Value::One,
            Value::One => Value::Zero,
            Value::X => Value::X,
            Value::Z => Value::X,
        }
    }

    /// The byte that stands for it in a recording: `0`, `1`, `x` or `z` (IEEE 1364-2005, clause 18).
    pub fn letter(self) -> u8
        ensures { result ≡ letter_of self }
    {
        match self {
            Value::Zero => b'0',
            Value::One => b'1',
            Value::X => b'x',
            Value::Z => b'z',
        }
    }
}

/// As its letter.
impl fmt::Display for Value {
    ghost output = { λ value. Some (letter_of value ∷ []) };

    fn fmt<W: fmt::Write>(&self, f: &mut fmt::Formatter<W>) -> fmt::Result {
        match self {
            Value::Zero => write!(f, "0"),
            Value::One => write!(f, "1"),
            Value::X => write!(f, "x"),
            Value::Z => write!(f, "z"),
        }
    }
}
