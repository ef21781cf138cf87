//! Words of a line.

use base_lists::{Memory, put, put_number};
use std::str;

/// The text of some bytes; those that are none are empty.
pub fn text_of(bytes: &[u8]) -> &str {
    str::from_utf8(bytes).unwrap_or("")
}

/// A word and the number after it, 0 where there is none.
pub fn word_and_number(words: &str) -> (&str, u64) {
    let (word, rest) = words.split_once(' ').unwrap_or((words, ""));
    (word, rest.parse::<u64>().unwrap_or(0))
}

/// Puts words and a number after them.
pub fn put_count(out: &mut Vec<u8>, words: &[u8], count: u64) -> Result<(), Memory> {
    put(out, words)?;
    put_number(out, count)
}
