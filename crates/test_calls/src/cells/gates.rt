//! The tables of gates, by hand from IEEE 1364-2005, clause 7.

ghost use Rattle.design_cell.specs.Gate.{FitsGate};

use design_cell::{Gate, Value, gate_value};
use std::process::Abort;

/// The value at each pair of 0, 1, x and z, the first input's row by row.
fn check_pairs(rt: &impl Abort, kind: Gate, want: [[u8; 4]; 4])
    requires { FitsGate kind 2 }
{
    let values = [Value::Zero, Value::One, Value::X, Value::Z];
    for a in 0..4 {
        for b in 0..4 {
            let value = gate_value(kind, &[values[a], values[b]]).letter();
            assert_eq!(rt; value, want[a][b], "{kind:?} at {a} and {b}");
        }
    }
}

#[test]
fn two_inputs(rt: HostRuntime) {
    check_pairs(&rt, Gate::And, [*b"0000", *b"01xx", *b"0xxx", *b"0xxx"]);
    check_pairs(&rt, Gate::Nand, [*b"1111", *b"10xx", *b"1xxx", *b"1xxx"]);
    check_pairs(&rt, Gate::Or, [*b"01xx", *b"1111", *b"x1xx", *b"x1xx"]);
    check_pairs(&rt, Gate::Nor, [*b"10xx", *b"0000", *b"x0xx", *b"x0xx"]);
    check_pairs(&rt, Gate::Xor, [*b"01xx", *b"10xx", *b"xxxx", *b"xxxx"]);
    check_pairs(&rt, Gate::Xnor, [*b"10xx", *b"01xx", *b"xxxx", *b"xxxx"]);
}

/// The value at 0, 1, x and z.
fn check_single(rt: &impl Abort, kind: Gate, want: [u8; 4])
    requires { FitsGate kind 1 }
{
    let values = [Value::Zero, Value::One, Value::X, Value::Z];
    for a in 0..4 {
        assert_eq!(rt;
            gate_value(kind, &[values[a]]).letter(),
            want[a],
            "{kind:?} at {a}"
        );
    }
}

#[test]
fn one_input(rt: HostRuntime) {
    check_single(&rt, Gate::And, *b"01xx");
    check_single(&rt, Gate::Nand, *b"10xx");
    check_single(&rt, Gate::Or, *b"01xx");
    check_single(&rt, Gate::Nor, *b"10xx");
    check_single(&rt, Gate::Xor, *b"01xx");
    check_single(&rt, Gate::Xnor, *b"10xx");
    check_single(&rt, Gate::Buf, *b"01xx");
    check_single(&rt, Gate::Not, *b"10xx");
}

/// The value of a gate of ten inputs.
fn check_ten(rt: &impl Abort, kind: Gate, pins: &[Value; 10], want: Value)
    requires { FitsGate kind 10 }
{
    assert_eq!(rt; gate_value(kind, pins), want);
}

#[test]
fn ten_inputs(rt: HostRuntime) {
    let mut pins = [Value::One; 10];
    check_ten(&rt, Gate::And, &pins, Value::One);
    check_ten(&rt, Gate::Xor, &pins, Value::Zero);
    pins[9] = Value::Zero;
    check_ten(&rt, Gate::And, &pins, Value::Zero);
    check_ten(&rt, Gate::Xor, &pins, Value::One);
    pins[4] = Value::X;
    check_ten(&rt, Gate::Nand, &pins, Value::One);
    check_ten(&rt, Gate::Or, &pins, Value::One);
    check_ten(&rt, Gate::Xnor, &pins, Value::X);
}
