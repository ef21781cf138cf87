//! Ranges, and the recorded names of variables.

ghost use Rattle.std.specs.Prelude.{◌≡◌, ◌<◌, ◌==◌, IfSome, length, option_map, position};
ghost use Rattle.recording_reader.specs.Bytes.{index_of, both_of, bounds_of, is_bracketed, range_of, last_bracket};
ghost use Rattle.recording_reader.specs.Declarations.{recorded_name};
ghost use Rattle.recording_reader.specs.Naming.{shown_name};

use crate::bytes::{drop, take};
use base_scan::number_within;

/// The name of a variable in the text: its reference as recorded, its range, and whether that stands directly after the
/// reference, which then has it too.
#[derive(Clone, Copy)]
pub struct RecordedName<'a> {
    pub reference: &'a [u8],
    pub range: Option<(u32, u32)>,
    pub direct: bool,
}

/// The name that one word gives: a range directly after the reference begins at the last `[`.
pub fn name_of(text: &[u8]) -> RecordedName<'_>
    ensures { shown_name result ≡ recorded_name text.now }
{
    let place = last_bracket(text);
    match range_of(drop(text, place)) {
        Some(range) if place != 0 => RecordedName {
            reference: text,
            range: Some(range),
            direct: true,
        },
        _ => RecordedName {
            reference: text,
            range: None,
            direct: false,
        },
    }
}

/// The place of the last `[`, or 0 where there is none.
pub fn last_bracket(text: &[u8]) -> usize
    ensures { result ≡ last_bracket text.now }
{
    let mut rest = text;
    let mut place: usize = 0;
    let mut found: usize = 0;
    'bytes: while let [b, after @ ..] = rest {
        found = if *b == b'[' { place } else { found };
        place += 1;
        rest = after;
    }
    found
}

// range = "[" index "]" | "[" index ":" index "]"
pub fn range_of(text: &[u8]) -> Option<(u32, u32)>
    ensures { result ≡ range_of text.now }
{
    if is_bracketed(text) {
        bounds_of(&text[1..text.len() - 1])
    } else {
        None
    }
}

fn is_bracketed(text: &[u8]) -> bool
    ensures is { result ≡ is_bracketed text.now }
{
    2 <= text.len() && text[0] == b'[' && text[text.len() - 1] == b']'
}

fn bounds_of(text: &[u8]) -> Option<(u32, u32)>
    ensures { result ≡ bounds_of text.now }
{
    match colon_of(text) {
        None => one_of(index_of(text)),
        Some(colon) => both_of(index_of(take(text, colon)), index_of(drop(text, colon + 1))),
    }
}

/// The place of the first colon.
fn colon_of(text: &[u8]) -> Option<usize>
    ensures is { result ≡ position (λ b. b == 58) text.now }
    ensures within { IfSome result (λ colon. colon < length text.now) }
{
    text.iter().position(|b| *b == b':')
}

fn one_of(index: Option<u32>) -> Option<(u32, u32)>
    ensures { result ≡ option_map (λ i. (i, i)) index }
{
    match index {
        None => None,
        Some(i) => Some((i, i)),
    }
}

fn both_of(first: Option<u32>, second: Option<u32>) -> Option<(u32, u32)>
    ensures { result ≡ both_of first second }
{
    match (first, second) {
        (Some(m), Some(l)) => Some((m, l)),
        _ => None,
    }
}

/// An index is at most 2^31 - 1.
fn index_of(text: &[u8]) -> Option<u32>
    ensures { result ≡ index_of text.now }
{
    match number_within(2_147_483_647, text) {
        None => None,
        Some(index) => Some(index as u32),
    }
}
