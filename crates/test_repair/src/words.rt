//! Words of a line.

use base_lists::Memory;
use std::fmt::Write;
use std::str;

/// The text of some bytes; those that are none are empty.
pub fn text_of(bytes: &[u8]) -> &str {
    str::from_utf8(bytes).unwrap_or("")
}

/// A word, and what stands behind it.
pub fn first_word(words: &str) -> (&str, &str) {
    words.split_once(' ').unwrap_or((words, ""))
}

/// The number that a word is, 0 where it is none.
pub fn number_of(word: &str) -> u64 {
    word.parse::<u64>().unwrap_or(0)
}

pub fn is_word(text: &str, word: &str) -> bool {
    text == word
}

pub fn put(out: &mut String, text: &str) -> Result<(), Memory> {
    out.push_str(text)?;
    Ok(())
}

/// Puts a number between two texts.
pub fn put_number(out: &mut String, before: &str, number: u64, behind: &str) -> Result<(), Memory> {
    write!(out, "{before}{number}{behind}")?;
    Ok(())
}
