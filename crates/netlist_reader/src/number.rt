//! Numbers of the grammar (IEEE 1364-2005, clause 3.5).

ghost use Rattle.std.specs.Prelude.{◌≡◌, ◌==◌, ◌≤◌, ◌<◌, ◌^◌, ◌*◌, ◌+◌, IfSome, nat_lt, length, take_while, Some};
ghost use Rattle.std.specs.Option.{SomeIff};
ghost use Rattle.netlist_grammar.specs.Bytes as bytes;
ghost use Rattle.netlist_grammar.specs.Numbers as spec;
ghost use Rattle.netlist_reader.specs.Sizes.{size_in, narrow_number};

use crate::keyword::is_spelled;
use design_cell::Value;

/// An int: digits, at most 2^31 - 1.
#[tactic(auto, unfolding(netlist_grammar::specs::Numbers::int_of))]
pub fn int_of(text: &[u8]) -> Option<u32>
    ensures { result ≡ spec.int_of text.now }
{
    if text.is_empty() {
        return None;
    }
    let mut rest = text;
    let mut value: u32 = 0;
    'digits: while let [digit, after @ ..] = rest {
        if !is_digit(*digit) {
            return None;
        }
        if value > 214748364 {
            return None;
        }
        value = value * 10 + worth(*digit) as u32;
        rest = after;
    }
    if value < 2147483648 {
        Some(value)
    } else {
        None
    }
}

/// A bit, by one of five spellings.
#[tactic(auto, unfolding(netlist_grammar::specs::Numbers::bit_of))]
pub fn bit_of(text: &[u8]) -> Option<Value>
    ensures { result ≡ spec.bit_of text.now }
{
    if is_spelled(text, b"1'b0") || is_spelled(text, b"0") {
        Some(Value::Zero)
    } else if is_spelled(text, b"1'b1") || is_spelled(text, b"1") {
        Some(Value::One)
    } else if is_spelled(text, b"1'bx") {
        Some(Value::X)
    } else {
        None
    }
}

/// A literal, by its size in bits and its value.
#[tactic(auto, unfolding(netlist_grammar::specs::Numbers::literal_of))]
pub fn literal_of(text: &[u8]) -> Option<(u32, u128)>
    ensures { result ≡ spec.literal_of text.now }
{
    let size = leading_digits(text);
    literal_behind(size, &text[size.len()..])
}

/// A literal, by its size and what stands after the size.
fn literal_behind(size: &[u8], rest: &[u8]) -> Option<(u32, u128)>
    ensures { result ≡ spec.literal_behind size.now rest.now }
{
    let [quote, letter, digits @ ..] = rest else {
        return None;
    };
    let size = size_of(size, *quote)?;
    let base = base_of(*letter)?;
    value_in(size, base, digits)
}

fn leading_digits(text: &[u8]) -> &[u8]
    ensures digits { result.now ≡ take_while bytes.is_digit text.now }
    ensures fits { length result.now ≤ length text.now }
{
    let mut rest = text;
    'digits: while let [byte, after @ ..] = rest {
        if !is_digit(*byte) {
            break;
        }
        rest = after;
    }
    &text[..text.len() - rest.len()]
}

/// The size of a literal, 1 to 128, where a quotation mark stands after it.
#[tactic(auto, unfolding(netlist_grammar::specs::Numbers::int_of))]
fn size_of(text: &[u8], quote: u8) -> Option<u32>
    ensures size { result ≡ size_in text.now quote }
    ensures bounds { IfSome result (λ n. (1 ≤ n) × (n ≤ 128)) }
{
    if quote != b'\'' {
        return None;
    }
    let size = int_of(text)?;
    if 1 <= size && size <= 128 {
        Some(size)
    } else {
        None
    }
}

/// The base that a letter stands for.
fn base_of(letter: u8) -> Option<u8>
    ensures { result ≡ spec.base_of letter }
{
    match letter {
        b'b' | b'B' => Some(2),
        b'o' | b'O' => Some(8),
        b'd' | b'D' => Some(10),
        b'h' | b'H' => Some(16),
        _ => None,
    }
}

/// The size and the value of a literal, where the value fits.
fn value_in(size: u32, base: u8, digits: &[u8]) -> Option<(u32, u128)>
    requires size { (1 ≤ size) × (size ≤ 128) }
    requires base { (2 ≤ base) × (base ≤ 16) }
    ensures { result ≡ spec.literal_in size digits.now (Some base) }
{
    let value = spaced_value(base, digits)?;
    if fits(value, size) {
        Some((size, value))
    } else {
        None
    }
}

/// Whether a number is below two to the power of a size.
fn fits(number: u128, size: u32) -> bool
    requires { (1 ≤ size) × (size ≤ 128) }
    ensures { result ≡ nat_lt number (2 ^ size) }
{
    size == 128 || number >> size == 0
}

/// Whether a `_` stands first.
fn begins_low(text: &[u8]) -> bool
    ensures { result ≡ spec.begins (λ b. b == 95) text.now }
{
    match text {
        [byte, ..] => *byte == b'_',
        [] => false,
    }
}

/// The number that digits of a base give, with `_` between, where it is below 2^128.
#[tactic(auto, using(crate::proofs::Numbers::spaced_starts, crate::proofs::Numbers::space_first))]
fn spaced_value(base: u8, text: &[u8]) -> Option<u128>
    requires { (2 ≤ base) × (base ≤ 16) }
    ensures { result ≡ narrow_number base text.now }
{
    if begins_low(text) {
        return None;
    }
    let mut rest = text;
    let mut value: u128 = 0;
    let mut is_end = false;
    'digits: while let [byte, after @ ..] = rest {
        if *byte == b'_' {
            is_end = false;
        } else {
            if worth(*byte) >= base {
                return None;
            }
            value = with_digit(value, base, worth(*byte))?;
            is_end = true;
        }
        rest = after;
    }
    if is_end { Some(value) } else { None }
}

/// A number with one more digit of a base.
fn with_digit(number: u128, base: u8, digit: u8) -> Option<u128>
    ensures { SomeIff result (number * base + digit < 2 ^ 128) (number * base + digit) }
{
    number.checked_mul(base as u128)?.checked_add(digit as u128)
}

fn is_digit(b: u8) -> bool
    ensures { result ≡ bytes.is_digit b }
{
    b'0' <= b && b <= b'9'
}

/// What a byte is worth as a digit, 16 where it is none.
fn worth(b: u8) -> u8
    ensures { result ≡ bytes.worth b }
{
    if is_digit(b) {
        b - b'0'
    } else if b'a' <= b && b <= b'f' {
        b - 87
    } else if b'A' <= b && b <= b'F' {
        b - 55
    } else {
        16
    }
}
