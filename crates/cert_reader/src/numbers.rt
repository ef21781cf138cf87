//! Numbers and literals by their words.

ghost use Rattle.std.specs.Prelude.{◌≡◌, ◌≤◌, pos, option_map, IfSome};
ghost use Rattle.cert_reader.specs.Numbers.{is_numeral, literal_of_word, negated, numeral_within};
ghost use Rattle.cert_reader.specs.Machine.{short_of};

use base_scan::{are_digits, value_within};

// numeral = "0" | "1".."9" { "0".."9" }
fn is_numeral(word: &[u8]) -> bool
    ensures { result ≡ is_numeral word.now }
{
    are_digits(word) && (word[0] != b'0' || word.len() == 1)
}

/// The number that a word writes, where it is a numeral and at most the limit.
#[tactic(auto, unfolding(crate::specs::Numbers::numeral_within))]
pub fn numeral_within(limit: u64, word: &[u8]) -> Option<u64>
    ensures is { result ≡ numeral_within limit word.now }
    ensures small { IfSome result (λ n. n ≤ limit) }
{
    if is_numeral(word) {
        value_within(limit, word)
    } else {
        None
    }
}

/// The number below 2^32 that a word writes.
#[tactic(auto, unfolding(crate::specs::Numbers::numeral_within))]
pub fn short_of(word: &[u8]) -> Option<u32>
    ensures { result ≡ short_of word.now }
{
    match numeral_within(4_294_967_295, word) {
        None => None,
        Some(number) => Some(number as u32),
    }
}

// literal = [ "-" ] numeral, up to 2^31 - 1, and no "-0"
/// The literal that a word writes, or 0, which ends a clause.
#[tactic(auto, unfolding(crate::specs::Numbers::literal_of_word))]
pub fn literal_of_word(word: &[u8]) -> Option<i32>
    ensures { result ≡ literal_of_word word.now }
{
    match word {
        [] => None,
        [b'-', rest @ ..] => negated(numeral_within(2_147_483_647, rest)),
        [_, ..] => positive(numeral_within(2_147_483_647, word)),
    }
}

fn negated(number: Option<u64>) -> Option<i32>
    requires { IfSome number (λ n. n ≤ 2147483647) }
    ensures { result ≡ negated number }
{
    match number {
        None => None,
        Some(0) => None,
        Some(n) => Some(-(n as i32)),
    }
}

fn positive(number: Option<u64>) -> Option<i32>
    requires { IfSome number (λ n. n ≤ 2147483647) }
    ensures { result ≡ option_map (λ n. pos n) number }
{
    match number {
        None => None,
        Some(n) => Some(n as i32),
    }
}
