//! What passes for every assignment of a place.

ghost use Rattle.std.specs.Prelude.{◌≡◌, ◌<◌};
ghost use Rattle.design_cell.specs.declared.value.Value.{Value as AnyValue};
ghost use Rattle.design_circuit.specs.Circuit.{job_in};
ghost use Rattle.law_model.specs.Assignment.{assigned};
ghost use Rattle.law_model.specs.Class.{is_bit, flipped};
ghost use Rattle.law_model.specs.Mask.{masked};
ghost use Rattle.wave_class.specs.Test.{passes, passes_number, ReadsOnly};

use crate::asked::Uncertain;
use crate::assigned::{Assigned, Numbered};
use crate::earlier::Earlier;
use crate::test::Test;
use design_cell::Value;
use design_circuit::{BitSource, rule_value};

/// Whether a test passes for every assignment of a place. Tries them all, and stops at the first that fails.
pub fn passes_every<E: Earlier>(uncertain: &Uncertain<'_, E>, test: Test) -> bool
    requires reads { let asked = uncertain.now.asked.now in
        ReadsOnly (job_in asked.circuit.now) (E.reads asked.earlier.now) asked.place test }
    ensures { let asked = uncertain.now.asked.now in
        result ≡ passes (job_in asked.circuit.now) (E.reads asked.earlier.now) asked.place test }
{
    let end: u16 = 1 << uncertain.places.len();
    'numbers: for number in 0..end {
        if !passes_at(uncertain, number, test) {
            return false;
        }
    }
    true
}

/// Whether a test passes for one choice of bits.
fn passes_at<E: Earlier>(uncertain: &Uncertain<'_, E>, number: u16, test: Test) -> bool
    requires reads { let asked = uncertain.now.asked.now in
        ReadsOnly (job_in asked.circuit.now) (E.reads asked.earlier.now) asked.place test }
    ensures { let asked = uncertain.now.asked.now in
        result ≡ passes_number (job_in asked.circuit.now) (E.reads asked.earlier.now) asked.place test
        uncertain.now.places.now number }
{
    let asked = uncertain.asked;
    let bits = Assigned {
        certain: asked.earlier,
        chosen: Numbered {
            places: uncertain.places,
            number,
        },
    };
    let value = rule_value(asked.circuit, asked.earlier, &bits, asked.place);
    match test {
        Test::Bit(bit) => is_bit(value, bit),
        Test::Unknown => !value.is_known(),
        Test::Known => value.is_known(),
        Test::Copies(from, inverted) => is_bit(value, flipped(inverted, bits.bit(from))),
    }
}

fn is_bit(value: Value, bit: bool) -> bool
    ensures { result ≡ is_bit value bit }
{
    match value {
        Value::Zero => !bit,
        Value::One => bit,
        Value::X => false,
        Value::Z => false,
    }
}

fn flipped(inverted: bool, bit: bool) -> bool
    ensures { result ≡ flipped inverted bit }
{
    if inverted { !bit } else { bit }
}
