//! Numbers by their digits, up to a limit.

ghost use Rattle.std.specs.Prelude.{◌≡◌, ◌≤◌, ◌∷◌, [], IfSome};
ghost use Rattle.base_scan.specs.Numbers.{at_most, number_from, number_within};

use crate::bytes::are_digits;

/// The number that a word writes, where it is digits and at most the limit.
pub fn number_within(limit: u64, word: &[u8]) -> Option<u64>
    ensures is { result ≡ number_within limit word.now }
    ensures small { IfSome result (λ n. n ≤ limit) }
{
    if are_digits(word) {
        value_within(limit, word)
    } else {
        None
    }
}

/// The number that digits write, where it is at most the limit.
pub fn value_within(limit: u64, digits: &[u8]) -> Option<u64>
    ensures is { result ≡ at_most limit (number_from 0 digits.now) }
    ensures small { IfSome result (λ n. n ≤ limit) }
{
    let mut rest = digits;
    let mut number: u64 = 0;
    'digits: while let [d, after @ ..] = rest {
        number = match next_number(limit, number, *d) {
            None => return None,
            Some(next) => next,
        };
        rest = after;
    }
    at_most(limit, number)
}

/// The number with one more digit, where it is at most the limit.
fn next_number(limit: u64, number: u64, digit: u8) -> Option<u64>
    ensures { result ≡ at_most limit (number_from number (digit ∷ [])) }
{
    let unit = digit.saturating_sub(b'0') as u64;
    match number.checked_mul(10) {
        None => None,
        Some(tens) => match tens.checked_add(unit) {
            None => None,
            Some(next) => at_most(limit, next),
        },
    }
}

fn at_most(limit: u64, number: u64) -> Option<u64>
    ensures is { result ≡ at_most limit number }
    ensures small { IfSome result (λ n. n ≤ limit) }
{
    if number <= limit { Some(number) } else { None }
}
