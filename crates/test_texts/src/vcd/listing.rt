//! What a recording says, as lines.

ghost use Rattle.std.specs.Prelude.{◌<◌, length};
ghost use Rattle.recording_reader.specs.Recording.{width_at};

use recording_reader::{Cursor, Recording};
use std::alloc::{AllocError, Global};
use std::str;

/// A line a variable: its reference, then `@TIME BITS` for each moment.
pub fn values(alloc: Global, recording: &Recording) -> Result<Vec<u8>, AllocError> {
    let mut out = Vec::new(alloc);
    for (number, variable) in recording.variables().iter().enumerate() {
        out.extend_from_slice(variable.reference.as_slice())?;
        put_moments(alloc, &mut out, recording, number as u32)?;
        out.push(b'\n')?;
    }
    Ok(out)
}

fn put_moments(
    alloc: Global,
    out: &mut Vec<u8>,
    recording: &Recording,
    variable: u32,
) -> Result<(), AllocError>
    requires { variable < length recording.now.variables }
{
    for (moment, time) in recording.times().iter().enumerate() {
        let time = format!(in alloc; " @{time} ")?;
        out.extend_from_slice(time.as_bytes())?;
        put_bits(out, recording, variable, moment as u32)?;
    }
    Ok(())
}

fn put_bits(
    out: &mut Vec<u8>,
    recording: &Recording,
    variable: u32,
    moment: u32,
) -> Result<(), AllocError>
    requires variable { variable < length recording.now.variables }
    requires moment { moment < length recording.now.times }
{
    for bit in 0..recording.width(variable) {
        out.push(recording.value(variable, bit, moment).letter())?;
    }
    Ok(())
}

/// A line a variable: its reference, its range, where that stands, its width and its scope.
pub fn names(alloc: Global, recording: &Recording) -> Result<Vec<u8>, AllocError> {
    let mut out = Vec::new(alloc);
    for variable in recording.variables() {
        out.extend_from_slice(variable.reference.as_slice())?;
        let range = match variable.range {
            Some((first, last)) => format!(in alloc; " [{first}:{last}]")?,
            None => String::new(alloc),
        };
        out.extend_from_slice(range.as_bytes())?;
        if variable.direct {
            out.extend_from_slice(b" behind ")?;
            out.extend_from_slice(variable.bare_reference())?;
        }
        let place = format!(in alloc; " width {} in {}\n", variable.width, variable.scope)?;
        out.extend_from_slice(place.as_bytes())?;
    }
    Ok(out)
}

/// A line a scope: its number, its name and the scope that it is in.
pub fn scopes(alloc: Global, recording: &Recording) -> Result<Vec<u8>, AllocError> {
    let mut out = Vec::new(alloc);
    for scope in 1..recording.scope_count() {
        let scope = scope as u32;
        let number = format!(in alloc; "{scope} ")?;
        out.extend_from_slice(number.as_bytes())?;
        out.extend_from_slice(recording.scope_name(scope))?;
        let parent = format!(in alloc; " in {}\n", recording.scope_parent(scope))?;
        out.extend_from_slice(parent.as_bytes())?;
    }
    Ok(out)
}

/// The timescale, or `none`.
pub fn timescale(alloc: Global, recording: &Recording) -> Result<Vec<u8>, AllocError> {
    let mut out = Vec::new(alloc);
    match recording.timescale() {
        Some(scale) => out.extend_from_slice(scale)?,
        None => out.extend_from_slice(b"none")?,
    }
    out.push(b'\n')?;
    Ok(out)
}

/// A line a variable: how many changes its code has.
pub fn changes(alloc: Global, recording: &Recording) -> Result<Vec<u8>, AllocError> {
    let mut out = Vec::new(alloc);
    for (number, variable) in recording.variables().iter().enumerate() {
        out.extend_from_slice(variable.reference.as_slice())?;
        let count = format!(in alloc; " {}\n", recording.change_count(number as u32))?;
        out.extend_from_slice(count.as_bytes())?;
    }
    Ok(out)
}

/// A line a moment of these: its number, and the bits of the first variable, read by one cursor.
pub fn moments(
    alloc: Global,
    recording: &Recording,
    numbers: &[u8],
) -> Result<Vec<u8>, AllocError> {
    let mut out = Vec::new(alloc);
    let mut cursor = match Cursor::new(alloc, recording) {
        Ok(cursor) => cursor,
        Err(_) => return Err(AllocError),
    };
    for number in numbers.split(|byte| *byte == b' ') {
        if let Some(moment) = number_of(number) {
            put_moment(alloc, &mut out, &mut cursor, moment)?;
        }
    }
    Ok(out)
}

fn number_of(digits: &[u8]) -> Option<u32> {
    str::from_utf8(digits).ok()?.parse::<u32>().ok()
}

fn put_moment(
    alloc: Global,
    out: &mut Vec<u8>,
    cursor: &mut Cursor<'_>,
    moment: u32,
) -> Result<(), AllocError> {
    let recording = cursor.recording();
    if recording.variables().is_empty() || moment as usize >= recording.times().len() {
        return Ok(());
    }
    let number = format!(in alloc; "{moment} ")?;
    out.extend_from_slice(number.as_bytes())?;
    for bit in 0..recording.width(0) {
        out.push(cursor.value(0, bit, moment).letter())?;
    }
    out.push(b'\n')?;
    Ok(())
}
