//! A place of a waveform in a byte.

ghost use Rattle.std.specs.Prelude.{◌≡◌, ◌≤◌, ◌==◌};
ghost use Rattle.design_circuit.specs.History.{two_bits, value_of_bits};
ghost use Rattle.law_quiet.specs.OfClass.{facts};
ghost use Rattle.wave_bytes.specs.Byte as spec;
ghost use Rattle.wave_bytes.specs.Byte.{facts_of_byte, mark_of_bits, two_bits_of_mark, written_of_byte};

use design_cell::Value;
use design_circuit::{Mark, Written};

/// What stands at the place of a byte.
pub fn written_in(byte: u8) -> Written
    ensures { result ≡ written_of_byte byte }
{
    Written {
        value: value_of(byte % 4),
        mark: mark_of(byte / 4 % 4),
    }
}

/// Whether its class carries on from the step before.
pub fn is_carried_on(byte: u8) -> bool
    ensures { result ≡ (facts_of_byte byte).carries }
{
    byte / 16 % 2 == 1
}

/// Whether it is Local or Free.
pub fn is_plain(byte: u8) -> bool
    ensures { result ≡ (facts_of_byte byte).plain }
{
    byte / 32 % 2 == 1
}

/// Whether its net keeps there.
pub fn keeps(byte: u8) -> bool
    ensures { result ≡ (facts_of_byte byte).keeps }
{
    byte / 64 % 2 == 1
}

/// Whether it is Line.
pub fn is_line(byte: u8) -> bool
    ensures { result ≡ (facts_of_byte byte).line }
{
    byte / 128 % 2 == 1
}

/// The byte of a place.
pub fn byte_of(written: Written, carries: bool, plain: bool, line: bool, keeps: bool) -> u8
    ensures written { written_of_byte result ≡ written }
    ensures facts { facts_of_byte result ≡ facts carries plain line keeps }
{
    let value = bits_of_value(written.value);
    let mark = bits_of_mark(written.mark);
    let low = value + 4 * mark;
    let class = 16 * bit_of(carries) + 32 * bit_of(plain) + 128 * bit_of(line);
    low + class + 64 * bit_of(keeps)
}

/// The byte of a place that has what its net's place a step before has, whose byte is given.
pub fn repeated_byte(byte: u8) -> u8
    ensures { result ≡ spec.repeated_byte byte }
{
    let low = byte % 16;
    if is_uncertain(mark_of(byte / 4 % 4)) {
        low + 80
    } else {
        low + 64
    }
}

/// The byte of a copy, by that of what it copies.
pub fn copied_byte(byte: u8) -> u8
    ensures { result ≡ spec.copied_byte byte }
{
    let low = low_byte(written_in(byte));
    if keeps(byte) { repeated_byte(low) } else { low }
}

/// A value and a mark, with a class that is left open and a net that doesn't keep.
fn low_byte(written: Written) -> u8
    ensures { result ≡ spec.low_byte written }
{
    let value = bits_of_value(written.value);
    let mark = bits_of_mark(written.mark);
    value + 4 * mark
}

fn is_uncertain(mark: Mark) -> bool
    ensures { result ≡ spec.is_uncertain mark }
{
    match mark {
        Mark::Certain => false,
        Mark::Unknown => true,
        Mark::Undecided => true,
    }
}

fn bit_of(is: bool) -> u8
    ensures bit { (result == 1) ≡ is }
    ensures few { result ≤ 1 }
{
    if is { 1 } else { 0 }
}

fn value_of(bits: u8) -> Value
    ensures { result ≡ value_of_bits bits }
{
    match bits {
        0 => Value::Zero,
        1 => Value::One,
        2 => Value::X,
        _ => Value::Z,
    }
}

fn mark_of(bits: u8) -> Mark
    ensures { result ≡ mark_of_bits bits }
{
    match bits {
        0 => Mark::Certain,
        1 => Mark::Unknown,
        _ => Mark::Undecided,
    }
}

fn bits_of_value(value: Value) -> u8
    ensures bits { result ≡ two_bits value }
    ensures few { result ≤ 3 }
{
    match value {
        Value::Zero => 0,
        Value::One => 1,
        Value::X => 2,
        Value::Z => 3,
    }
}

fn bits_of_mark(mark: Mark) -> u8
    ensures bits { result ≡ two_bits_of_mark mark }
    ensures few { result ≤ 3 }
{
    match mark {
        Mark::Certain => 0,
        Mark::Unknown => 1,
        Mark::Undecided => 2,
    }
}
