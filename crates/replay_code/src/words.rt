//! The words of a code text: its tokens with their bytes.

ghost use Rattle.std.specs.Prelude.{◌≡◌, ◌+◌, ◌-◌, ◌*◌, ◌<◌, ◌≤◌, ◌^◌, Some, None};
ghost use Rattle.replay_code.specs.Numbers.{IsNumber};
ghost use Rattle.replay_code.specs.Words as spec;

use crate::bytes::are_same;
use base_scan::{all_digits, value_within};
use design_cell::Value;
use netlist_tokens::{Kind, Token};

/// The bytes of a token, none where it doesn't lie in the text.
pub fn spelled<'a>(text: &'a [u8], token: Token) -> &'a [u8]
    ensures { result.now ≡ spec.spelled text.now token }
{
    if token.start <= token.end && token.end <= text.len() {
        &text[token.start..token.end]
    } else {
        &[]
    }
}

fn is_name(kind: Kind) -> bool
    ensures { result ≡ spec.is_name_kind kind }
{
    matches!(kind, Kind::Name)
}

fn is_mark_kind(kind: Kind) -> bool
    ensures { result ≡ spec.is_mark_kind kind }
{
    matches!(kind, Kind::Mark)
}

fn is_number_kind(kind: Kind) -> bool
    ensures { result ≡ spec.is_number_kind kind }
{
    matches!(kind, Kind::Number)
}

/// Whether a token is the Name of these bytes.
pub fn is_word(text: &[u8], token: Token, word: &[u8]) -> bool
    ensures { result ≡ spec.is_word text.now token word.now }
{
    is_name(token.kind) && are_same(spelled(text, token), word)
}

/// Whether a token is this Mark.
pub fn is_mark(text: &[u8], token: Token, word: &[u8]) -> bool
    ensures { result ≡ spec.is_mark text.now token word.now }
{
    is_mark_kind(token.kind) && are_same(spelled(text, token), word)
}

/// The name that a token is.
pub fn name_of<'a>(text: &'a [u8], token: Token) -> Option<&'a [u8]>
    ensures { spec.IsName (spec.token_name text.now token) result }
{
    let bytes = spelled(text, token);
    match token.kind {
        Kind::Name => Some(bytes),
        Kind::Escaped => Some(behind_first(bytes)),
        _ => None,
    }
}

fn behind_first(bytes: &[u8]) -> &[u8]
    ensures { result.now ≡ spec.behind_first bytes.now }
{
    match bytes {
        [] => bytes,
        [_, rest @ ..] => rest,
    }
}

/// The digits of the number that a token is.
pub fn digits_of<'a>(text: &'a [u8], token: Token) -> Option<&'a [u8]>
    ensures { spec.IsDigits (spec.digits_of text.now token) result }
{
    let bytes = spelled(text, token);
    if is_number_kind(token.kind) && all_digits(bytes) {
        Some(bytes)
    } else {
        None
    }
}

/// The number of these digits, none where it is 2^64 or more.
pub fn number_of(digits: &[u8]) -> Option<u64>
    ensures { IsNumber digits.now result }
{
    value_within(u64::MAX, digits)
}

/// The value of a token `1'b0`, `1'b1`, `1'bx` or `1'bz`.
pub fn value_of(text: &[u8], token: Token) -> Option<Value>
    ensures { result ≡ spec.value_of text.now token }
{
    if is_number_kind(token.kind) {
        bit_of(spelled(text, token))
    } else {
        None
    }
}

fn bit_of(bytes: &[u8]) -> Option<Value>
    ensures { result ≡ spec.bit_of bytes.now }
{
    if are_same(bytes, b"1'b0") {
        Some(Value::Zero)
    } else if are_same(bytes, b"1'b1") {
        Some(Value::One)
    } else if are_same(bytes, b"1'bx") {
        Some(Value::X)
    } else if are_same(bytes, b"1'bz") {
        Some(Value::Z)
    } else {
        None
    }
}
