//! What the rule of a place gives for the first choice of bits, all 0, and for the last, all 1: what its class can be.

ghost use Rattle.std.specs.Prelude.{◌≡◌, ◌<◌};
ghost use Rattle.design_cell.specs.declared.value.Value.{Value as AnyValue};
ghost use Rattle.design_circuit.specs.Circuit.{job_in};
ghost use Rattle.wave_class.specs.Ends as spec;
ghost use Rattle.wave_class.specs.Ends.{AreEnds};
ghost use Rattle.wave_class.specs.Test.{differ, value_by_number};

use crate::asked::Uncertain;
use crate::assigned::{Assigned, Numbered};
use crate::earlier::Earlier;
use crate::test::Test;
use design_cell::Value;
use design_circuit::rule_value;

/// The two values.
#[derive(Clone, Copy, Debug)]
pub struct Ends {
    pub first: Value,
    pub last: Value,
}

/// What the rule of a place gives for the first and for the last assignment.
pub fn ends_of<E: Earlier>(uncertain: &Uncertain<'_, E>) -> Ends
    ensures { let asked = uncertain.now.asked.now in
        AreEnds (job_in asked.circuit.now) (E.reads asked.earlier.now) asked.place uncertain.now.places.now result }
{
    let end: u16 = 1 << uncertain.places.len();
    Ends {
        first: value_at(uncertain, 0),
        last: value_at(uncertain, end - 1),
    }
}

/// What the rule gives for one choice of bits.
fn value_at<E: Earlier>(uncertain: &Uncertain<'_, E>, number: u16) -> Value
    ensures { let asked = uncertain.now.asked.now in
        result ≡ value_by_number (job_in asked.circuit.now) (E.reads asked.earlier.now) asked.place
        uncertain.now.places.now number }
{
    let asked = uncertain.asked;
    let bits = Assigned {
        certain: asked.earlier,
        chosen: Numbered {
            places: uncertain.places,
            number,
        },
    };
    rule_value(asked.circuit, asked.earlier, &bits, asked.place)
}

impl Ends {
    /// Whether one of them is 0, 1 or x and the other isn't: the place is then neither local nor free.
    pub fn are_mixed(self) -> bool
        ensures { result ≡ differ self.first self.last }
    {
        match self.first {
            Value::Zero => !matches!(self.last, Value::Zero),
            Value::One => !matches!(self.last, Value::One),
            Value::X => self.last.is_known(),
            Value::Z => self.last.is_known(),
        }
    }

    /// The test that the place passes for every assignment, if it is local or free.
    pub fn test(self) -> Test
        ensures { result ≡ spec.test_at self.first }
    {
        match self.first {
            Value::Zero => Test::Bit(false),
            Value::One => Test::Bit(true),
            Value::X => Test::Unknown,
            Value::Z => Test::Unknown,
        }
    }

    /// Whether the place is inverted, if it is carried from one of the places; nothing where it can't be.
    pub fn inverted(self) -> Option<bool>
        ensures { result ≡ spec.inverted_by self.first self.last }
    {
        match (self.first, self.last) {
            (Value::Zero, Value::One) => Some(false),
            (Value::One, Value::Zero) => Some(true),
            _ => None,
        }
    }
}
