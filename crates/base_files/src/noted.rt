//! The calls of the system that move bytes or give a file its name, each noted with what it did.
//!
//! No contract of these calls says what they move. So that each note is of the call beside it is to be read here; what
//! stands on the notes is proved.

ghost use Rattle.std.specs.Prelude.{◌≡◌, ◌<◌, ◌≤◌, ◌+◌, [], length, take, IfOk, OnOk, OnErr};
ghost use Rattle.base_trace.specs.Record.{traced_anew, traced_bytes, traced_more};

use crate::target::Target;
use base_trace::Record;
use std::fs;
use std::fs::File;
use std::io::{Read, Write};
use std::rt::Files;

/// A call was refused by the system.
#[derive(Clone, Copy, Debug)]
pub struct Refused;

/// Reads once, and notes what was given.
pub fn read_noted<F: Read>(
    file: &mut F,
    buffer: &mut [u8],
    name: &[u8],
    gave: &mut Record,
) -> Result<usize, Refused>
    ensures bound { IfOk result (λ n. n ≤ length buffer.new) }
    ensures noted { IfOk result (λ n. gave.new.entries ≡ traced_more name.now (take n buffer.new) gave.old.entries) }
    ensures err { OnErr result (gave.new.entries ≡ gave.old.entries) }
{
    match file.read(buffer) {
        Ok(count) => {
            gave.add(name, &buffer[..count]);
            Ok(count)
        }
        Err(_) => Err(Refused),
    }
}

/// Makes a file for a name, and notes that nothing was written of it.
#[tactic(auto)]
pub fn create_noted<R: Files<File = File>>(
    files: &R,
    name: &str,
    target: &Target,
    took: &mut Record,
) -> Result<File, Refused>
    ensures ok { OnOk result (took.new.entries ≡ traced_anew name.now [] took.old.entries) }
    ensures err { OnErr result (took.new.entries ≡ took.old.entries) }
{
    let made = match target {
        Target::Part(part) => File::create_new(files, part.as_str()),
        Target::Itself => fs::create(files, name),
    };
    match made {
        Ok(file) => {
            took.set(name.as_bytes(), &[]);
            Ok(file)
        }
        Err(_) => Err(Refused),
    }
}

/// Writes once, and notes what was taken. That none of some bytes is taken is a refusal.
pub fn write_noted<W: Write>(
    writer: &mut W,
    bytes: &[u8],
    name: &[u8],
    took: &mut Record,
) -> Result<usize, Refused>
    ensures bound { IfOk result (λ n. n ≤ length bytes.now) }
    ensures some { IfOk result (λ n. 0 < length bytes.now → 0 < n) }
    ensures noted { IfOk result (λ n. took.new.entries ≡ traced_more name.now (take n bytes.now) took.old.entries) }
    ensures err { OnErr result (took.new.entries ≡ took.old.entries) }
{
    match writer.write(bytes) {
        Ok(count) if count > 0 || bytes.is_empty() => {
            took.add(name, &bytes[..count]);
            Ok(count)
        }
        _ => Err(Refused),
    }
}

/// Puts a file under its name, and notes that what its writes took stands there. A device, a pipe or a link took it as
/// it was written.
#[tactic(auto)]
pub fn put_noted<R: Files<File = File>>(
    files: &R,
    name: &str,
    target: &Target,
    took: &Record,
    put: &mut Record,
) -> Result<(), Refused>
    ensures ok { OnOk result (put.new.entries
        ≡ traced_anew name.now (traced_bytes took.now.entries name.now) put.old.entries) }
    ensures err { OnErr result (put.new.entries ≡ put.old.entries) }
{
    let moved = match target {
        Target::Part(part) => fs::rename(files, part.as_str(), name),
        Target::Itself => Ok(()),
    };
    match moved {
        Ok(()) => {
            put.copy(name.as_bytes(), took);
            Ok(())
        }
        Err(_) => Err(Refused),
    }
}
