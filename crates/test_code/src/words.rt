//! Words of a line.

use design_circuit::Bytes;
use std::alloc::{AllocError, Global};
use std::str;

/// The text of some bytes; those that are none are empty.
pub fn text_of(bytes: &[u8]) -> &str {
    str::from_utf8(bytes).unwrap_or("")
}

/// A word, and what stands after it.
pub fn first_word(words: &str) -> (&str, &str) {
    words.split_once(' ').unwrap_or((words, ""))
}

/// What stands before the last word, and the word.
pub fn last_word(words: &str) -> (&str, &str) {
    words.rsplit_once(' ').unwrap_or(("", words))
}

/// The names of a scope, which is cut at its dots.
pub fn names_of(alloc: Global, scope: &str) -> Result<Vec<Bytes>, AllocError> {
    let mut names = Vec::new(alloc);
    for name in scope.split('.') {
        names.push(Bytes::from_vec(Vec::from_slice(alloc, name.as_bytes())?))?;
    }
    Ok(names)
}
