//! What parts a text into lines, and lines into words.

ghost use Rattle.std.specs.Prelude.{◌≡◌, ◌<◌, ◌≤◌, length, IfSome, MatchOption};
ghost use Rattle.base_scan.specs.Gaps.{IsCut, IsWhole, first_length, is_gap};

use crate::bytes::is_white;

/// The bytes between two parts of a text.
#[derive(Clone, Copy, Debug, PartialEq, Eq)]
pub enum Gap {
    /// This byte alone.
    Byte(u8),
    /// Spaces and tabs.
    Blank,
    /// White space: space, tab, newline, carriage return, form feed.
    White,
}

impl Gap {
    /// Whether this byte is one of them.
    pub fn is(self, byte: u8) -> bool
        ensures { result ≡ is_gap self byte }
    {
        match self {
            Gap::Byte(one) => byte == one,
            Gap::Blank => byte == b' ' || byte == b'\t',
            Gap::White => is_white(byte),
        }
    }
}

/// What stands before the first gap of a text, and what stands after it, if there is one.
pub fn split_at(text: &[u8], gap: Gap) -> (&[u8], Option<&[u8]>)
    ensures cut { MatchOption result.1 (IsWhole gap text.now result.0.now)
        (λ rest. IsCut gap text.now result.0.now rest.now) }
    ensures shorter { IfSome result.1 (λ rest. length rest.now < length text.now) }
{
    let count = first_length(text, gap);
    if count < text.len() {
        (&text[..count], Some(&text[count + 1..]))
    } else {
        (text, None)
    }
}

/// How many bytes come before the first gap.
pub fn first_length(text: &[u8], gap: Gap) -> usize
    ensures is { result ≡ first_length gap text.now }
    ensures within { result ≤ length text.now }
{
    let mut rest = text;
    let mut count: usize = 0;
    'bytes: while let [b, after @ ..] = rest {
        if gap.is(*b) {
            break;
        }
        rest = after;
        count += 1;
    }
    count
}
