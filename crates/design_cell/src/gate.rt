//! Gates and their tables (IEEE 1364-2005, clause 7).

ghost use Rattle.std.specs.Prelude.{◌≡◌, ◌≤◌, ◌^◌, ◌<◌, length, count_by};
ghost use Rattle.std.specs.List.{list_any, list_all};
ghost use Rattle.design_cell.specs.Value.{is_zero, is_one, is_unknown, read};
ghost use Rattle.design_cell.specs.Gate.{FitsGate, and_of, or_of, xor_of, buf_of, gate_of};

use crate::value::Value;

/// The kinds of gates.
#[derive(Clone, Copy, Debug, PartialEq, Eq, Hash)]
pub enum Gate {
    And,
    Nand,
    Or,
    Nor,
    Xor,
    Xnor,
    Buf,
    Not,
}

/// The value that a gate gives for the values of its inputs.
pub fn gate_value(kind: Gate, pins: &[Value]) -> Value
    requires { FitsGate kind (length pins.now) }
    ensures { result ≡ gate_of kind pins.now }
{
    match kind {
        Gate::And => and_value(pins),
        Gate::Nand => and_value(pins).complement(),
        Gate::Or => or_value(pins),
        Gate::Nor => or_value(pins).complement(),
        Gate::Xor => xor_value(pins),
        Gate::Xnor => xor_value(pins).complement(),
        Gate::Buf => buf_value(pins),
        Gate::Not => buf_value(pins).complement(),
    }
}

fn and_value(pins: &[Value]) -> Value
    ensures { result ≡ and_of pins.now }
{
    if any_zero(pins) {
        Value::Zero
    } else if all_one(pins) {
        Value::One
    } else {
        Value::X
    }
}

fn or_value(pins: &[Value]) -> Value
    ensures { result ≡ or_of pins.now }
{
    if any_one(pins) {
        Value::One
    } else if all_zero(pins) {
        Value::Zero
    } else {
        Value::X
    }
}

fn xor_value(pins: &[Value]) -> Value
    ensures { result ≡ xor_of pins.now }
{
    if any_unknown(pins) {
        Value::X
    } else if ones(pins) % 2 == 1 {
        Value::One
    } else {
        Value::Zero
    }
}

fn buf_value(pins: &[Value]) -> Value
    requires { length pins.now ≡ 1 }
    ensures { result ≡ buf_of pins.now }
{
    match pins {
        [Value::Zero, ..] => Value::Zero,
        [Value::One, ..] => Value::One,
        _ => Value::X,
    }
}

fn any_zero(pins: &[Value]) -> bool
    ensures { result ≡ list_any is_zero pins.now }
{
    pins.iter().any(|pin| *pin == Value::Zero)
}

fn any_one(pins: &[Value]) -> bool
    ensures { result ≡ list_any is_one pins.now }
{
    pins.iter().any(|pin| *pin == Value::One)
}

fn any_unknown(pins: &[Value]) -> bool
    ensures { result ≡ list_any is_unknown pins.now }
{
    pins.iter().any(|pin| matches!(pin, Value::X | Value::Z))
}

fn all_zero(pins: &[Value]) -> bool
    ensures { result ≡ list_all is_zero pins.now }
{
    pins.iter().all(|pin| *pin == Value::Zero)
}

fn all_one(pins: &[Value]) -> bool
    ensures { result ≡ list_all is_one pins.now }
{
    pins.iter().all(|pin| *pin == Value::One)
}

fn ones(pins: &[Value]) -> usize
    ensures { result ≡ count_by is_one pins.now }
{
    pins.iter().filter(|pin| **pin == Value::One).count()
}
