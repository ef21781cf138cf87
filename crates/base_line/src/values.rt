//! What values of options and names of files have to be.

ghost use Rattle.std.specs.Prelude.{◌≡◌, ◌==◌, ◌↔◌, ◌≤◌, ◌^◌, ℕ, IsTrue, IfSome, IfNone, true, length, drop, ◌<◌};
ghost use Rattle.std.specs.List.{AllByRecursion, list_all, list_any, position_or_len};
ghost use Rattle.std.specs.Str.{bytes_eq};
ghost use Rattle.std.specs.Char.{is_ascii_digit};
ghost use Rattle.base_line.specs.Line.{Fits, IsGraphic, IsNumber, IsScopeName, IsSet, IsValue, pieces_of};

use crate::option::Kind;

/// Whether a word may be a value or a FILE.
pub fn is_value(word: &str) -> bool
    ensures { IsTrue result ↔ IsValue word.now }
{
    match word.as_bytes() {
        [] => false,
        [first, ..] => *first != b'-',
    }
}

/// Whether an option of this kind takes the value.
pub fn fits(kind: Kind<'_>, value: &str) -> bool
    ensures { IsTrue result ↔ Fits kind.entry value.now }
{
    match kind {
        Kind::Scope => is_scope(value.as_bytes()),
        Kind::Number(least, most) => is_number_in(value, least, most),
        Kind::Word(words) => is_among(words, value),
        Kind::Either(one, other) => value == one || value == other,
        Kind::Sets => are_sets(value.as_bytes()),
        _ => true,
    }
}

fn is_among(words: &[&str], value: &str) -> bool
    ensures { result ≡ list_any (λ word. bytes_eq word.now value.now) words.now }
{
    words.iter().any(|word| *word == value)
}

fn is_number_in(text: &str, least: u64, most: u64) -> bool
    ensures { IsTrue result ↔ ((n : ℕ) × IsNumber text.now n × (least ≤ n) × (n ≤ most)) }
{
    match number_in(text) {
        Some(number) => least <= number && number <= most,
        None => false,
    }
}

/// The number that a text of digits is, none where it isn't below 2^64 either.
pub fn number_in(text: &str) -> Option<u64>
    ensures number { IfSome result (λ number. IsNumber text.now number) }
    ensures none { IfNone result ((number : ℕ) → IsNumber text.now number → 2 ^ 64 ≤ number) }
{
    if are_digits(text) {
        text.parse().ok()
    } else {
        None
    }
}

fn are_digits(text: &str) -> bool
    ensures { result ≡ list_all is_ascii_digit text.now }
{
    text.bytes().all(|byte| byte.is_ascii_digit())
}

/// Whether a scope, cut at its dots, gives names alone.
fn is_scope(scope: &[u8]) -> bool
    ensures { IsTrue result ↔ AllByRecursion IsScopeName (pieces_of 46 scope.now) }
{
    let mut rest = scope;
    let mut place = place_of(rest, b'.');
    'pieces: while place < rest.len() {
        if !is_scope_name(&rest[..place]) {
            return false;
        }
        rest = after(rest, place);
        place = place_of(rest, b'.');
    }
    is_scope_name(rest)
}

/// The first place of a byte, and the length where there is none.
fn place_of(bytes: &[u8], byte: u8) -> usize
    ensures { result ≡ position_or_len (λ b. b == byte) bytes.now }
{
    let mut place = 0;
    'bytes: while place < bytes.len() {
        if bytes[place] == byte {
            return place;
        }
        place += 1;
    }
    place
}

/// What stands after a place.
fn after(bytes: &[u8], place: usize) -> &[u8]
    requires { place < length bytes.now }
    ensures { result.now ≡ drop 1 (drop place bytes.now) }
{
    let (_, here) = bytes.split_at(place);
    let (_, rest) = here.split_at(1);
    rest
}

fn is_scope_name(name: &[u8]) -> bool
    ensures { IsTrue result ↔ IsScopeName name.now }
{
    !name.is_empty() && are_graphic(name)
}

fn are_graphic(name: &[u8]) -> bool
    ensures { IsTrue result ↔ AllByRecursion IsGraphic name.now }
{
    name.iter().all(|byte| byte.is_ascii_graphic())
}

/// Whether a list, cut at its commas, gives sets alone.
fn are_sets(list: &[u8]) -> bool
    ensures { IsTrue result ↔ AllByRecursion IsSet (pieces_of 44 list.now) }
{
    let mut rest = list;
    let mut place = place_of(rest, b',');
    'pieces: while place < rest.len() {
        if !is_set(&rest[..place]) {
            return false;
        }
        rest = after(rest, place);
        place = place_of(rest, b',');
    }
    is_set(rest)
}

fn is_set(piece: &[u8]) -> bool
    ensures { IsTrue result ↔ IsSet piece.now }
{
    let n = piece.len();
    if n < 3 {
        return false;
    }
    piece[n - 2] == b'=' && (piece[n - 1] == b'0' || piece[n - 1] == b'1')
}
