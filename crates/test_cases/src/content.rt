//! Lines joined to a content.

use crate::line::Line;
use itoa::Buffer;
use std::alloc::{AllocError, Global};
use std::str;

/// The number that these digits write.
fn number_of(digits: &[u8]) -> Option<u64> {
    str::from_utf8(digits).ok()?.parse::<u64>().ok()
}

/// The count and the text of a line that begins with a word, as `repeat COUNT TEXT`.
fn counted<'a>(line: Line<'a>, word: &[u8]) -> Option<(u64, &'a [u8])> {
    let rest = line.behind(word)?;
    let space = rest.iter().position(|byte| *byte == b' ')?;
    Some((number_of(&rest[..space])?, &rest[space + 1..]))
}

/// The byte that a number from 0 to 255 writes.
fn byte_of(digits: &[u8]) -> Option<u8> {
    u8::try_from(number_of(digits)?).ok()
}

/// Puts the bytes that a line `bytes NUMBER NUMBER ..` writes; a word that is none is left out.
fn put_bytes(content: &mut Vec<u8>, numbers: &[u8]) -> Result<(), AllocError> {
    for word in numbers.split(|byte| *byte == b' ') {
        if let Some(byte) = byte_of(word) {
            content.push(byte)?;
        }
    }
    Ok(())
}

/// Puts what a line stands for.
pub(crate) fn put_line(content: &mut Vec<u8>, line: Line<'_>) -> Result<(), AllocError> {
    if let Some(numbers) = line.behind(b"bytes ") {
        return put_bytes(content, numbers);
    }
    if let Some((count, text)) = counted(line, b"repeat ") {
        return put_repeated(content, count, text);
    }
    match counted(line, b"number ") {
        Some((count, text)) => put_numbered(content, count, text),
        None => content.extend_from_slice(line.text),
    }
}

/// Puts a text so many times.
fn put_repeated(content: &mut Vec<u8>, count: u64, text: &[u8]) -> Result<(), AllocError> {
    for _ in 0..count {
        content.extend_from_slice(text)?;
    }
    Ok(())
}

/// Puts so many lines, each a text and its number, from 1.
fn put_numbered(content: &mut Vec<u8>, count: u64, text: &[u8]) -> Result<(), AllocError> {
    let mut digits = Buffer::new();
    for place in 0..count {
        if place > 0 {
            content.push(b'\n')?;
        }
        content.extend_from_slice(text)?;
        content.extend_from_slice(digits.format(place + 1).as_bytes())?;
    }
    Ok(())
}

/// Puts so many newlines.
pub(crate) fn put_newlines(content: &mut Vec<u8>, count: u64) -> Result<(), AllocError> {
    for _ in 0..count {
        content.push(b'\n')?;
    }
    Ok(())
}
