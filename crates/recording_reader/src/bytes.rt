//! Tests of a word's bytes.

ghost use Rattle.std.specs.Prelude.{◌≡◌, take, drop};
ghost use Rattle.std.specs.List.{list_all};
ghost use Rattle.recording_reader.specs.Bytes.{is_end, is_code_byte, is_code, is_value, are_values, is_power, is_unit};
ghost use Rattle.recording_reader.specs.Bytes.{is_cut_scale, is_scale, is_skipped, rest_of, front_of};

use base_scan::is_word;

pub fn is_end(text: &[u8]) -> bool
    ensures { result ≡ is_end text.now }
{
    is_word(text, b"$end")
}

pub fn is_code(text: &[u8]) -> bool
    ensures { result ≡ is_code text.now }
{
    0 < text.len() && all_code_bytes(text)
}

fn all_code_bytes(text: &[u8]) -> bool
    ensures { result ≡ list_all is_code_byte text.now }
{
    text.iter().all(|b| is_code_byte(*b))
}

fn is_code_byte(b: u8) -> bool
    ensures { result ≡ is_code_byte b }
{
    33 <= b && b <= 126
}

pub fn are_values(text: &[u8]) -> bool
    ensures { result ≡ are_values text.now }
{
    0 < text.len() && all_values(text)
}

fn all_values(text: &[u8]) -> bool
    ensures { result ≡ list_all is_value text.now }
{
    text.iter().all(|b| is_value(*b))
}

pub fn is_value(b: u8) -> bool
    ensures { result ≡ is_value b }
{
    b == b'0' || b == b'1' || b == b'x' || b == b'X' || b == b'z' || b == b'Z'
}

pub fn is_power(text: &[u8]) -> bool
    ensures { result ≡ is_power text.now }
{
    is_word(text, b"1") || is_word(text, b"10") || is_word(text, b"100")
}

pub fn is_unit(text: &[u8]) -> bool
    ensures { result ≡ is_unit text.now }
{
    is_word(text, b"s")
        || is_word(text, b"ms")
        || is_word(text, b"us")
        || is_word(text, b"ns")
        || is_word(text, b"ps")
        || is_word(text, b"fs")
}

/// Whether it is 1, 10 or 100 and a unit, joined.
pub fn is_scale(text: &[u8]) -> bool
    ensures { result ≡ is_scale text.now }
{
    is_cut_scale(text, 1) || is_cut_scale(text, 2) || is_cut_scale(text, 3)
}

fn is_cut_scale(text: &[u8], place: usize) -> bool
    ensures { result ≡ is_cut_scale text.now place }
{
    is_power(take(text, place)) && is_unit(drop(text, place))
}

/// The first bytes, at most as many as there are.
pub fn take(text: &[u8], count: usize) -> &[u8]
    ensures { result.now ≡ take count text.now }
{
    if count < text.len() {
        &text[..count]
    } else {
        text
    }
}

/// What stands after the first bytes.
pub fn drop(text: &[u8], count: usize) -> &[u8]
    ensures { result.now ≡ drop count text.now }
{
    if count < text.len() {
        &text[count..]
    } else {
        &text[text.len()..]
    }
}

/// Whether variables of this kind are skipped.
pub fn is_skipped(text: &[u8]) -> bool
    ensures { result ≡ is_skipped text.now }
{
    is_word(text, b"real") || is_word(text, b"realtime") || is_word(text, b"event")
}

/// The bytes after the first.
pub fn rest_of(text: &[u8]) -> &[u8]
    ensures { result.now ≡ rest_of text.now }
{
    match text {
        [] => text,
        [_, after @ ..] => after,
    }
}

/// The first byte alone.
pub fn front_of(text: &[u8]) -> &[u8]
    ensures { result.now ≡ front_of text.now }
{
    match text {
        [] => text,
        [_, ..] => &text[..1],
    }
}
