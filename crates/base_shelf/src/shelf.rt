//! A shelf of named files, and whole files read from it and written to it.

ghost use Rattle.std.specs.Prelude.{◌≡◌, List, ℕ, Bool};
ghost use Rattle.base_shelf.specs.Shelf.{View, Created, OpenStep, ReadStep, CreateStep, Writes, CloseStep, PutStep};
ghost use Rattle.base_shelf.specs.Shelf.{DiscardStep};
ghost use Rattle.base_shelf.specs.Calls.{ReadAll, WriteAll};

use crate::fault::{IoErr, ReadErr, WriteErr};
use std::alloc::Global;

/// The most bytes that one call of `read` is asked for.
const BUFFER_BYTES: usize = 65_536;

/// Named files, one of which may be in hand, opened or created.
///
/// A file that is created and written doesn't stand under its name until `put_file` puts it there: until then the name
/// holds what it held. So many files can be written before the first name changes.
///
/// A count of faults rises only in a call that fails, so where one rose, some call failed. A fault at one name says
/// nothing of another name. A failed call leaves what stands under every name, but a failed `put_file` may have put the
/// file there.
pub trait Shelf {
    /// Whether what the files hold is reported. No call changes it.
    ghost told: { Bool };

    /// What is seen of it.
    ghost view: { Self → View };

    /// Gives up the file in hand, and opens a file to be read from its first byte.
    fn open_file(&mut self, name: &str) -> Result<(), IoErr>
        ensures { OpenStep told name.now (view self.old) (view self.new) result };

    /// Reads the next bytes of the opened file to the front of the buffer, and says how many.
    fn read(&mut self, buffer: &mut [u8]) -> Result<usize, IoErr>
        ensures { ReadStep told (view self.old) (view self.new) buffer.new result };

    /// Gives up the file in hand, and makes an empty file to be written, which isn't put under its name yet.
    fn create_file(&mut self, name: &str) -> Result<(), IoErr>
        ensures { CreateStep told name.now (view self.old) (view self.new) result };

    /// Writes the first of the bytes after the created file, and says how many.
    fn write(&mut self, bytes: &[u8]) -> Result<usize, IoErr>
        requires { (name : List ℕ) × ((view self.old).hand ≡ Created name) }
        ensures { Writes told (view self.old) (view self.new) bytes.now result };

    /// Gives up the file in hand.
    fn close_file(&mut self) -> Result<(), IoErr>
        ensures { CloseStep (view self.old) (view self.new) result };

    /// Gives up the file in hand, and puts what was written of a file under its name.
    fn put_file(&mut self, name: &str) -> Result<(), IoErr>
        ensures { PutStep told name.now (view self.old) (view self.new) result };

    /// Gives up the file in hand, and each file that isn't put under its name.
    fn discard(&mut self)
        ensures { DiscardStep (view self.old) (view self.new) };
}

/// All the bytes of a file, of which there are at most `limit`. Takes a buffer of 65,536 bytes besides.
///
/// After an `Err` the file may still be in hand; the next file opened or created takes its place.
pub fn read_all<S: Shelf>(
    alloc: Global,
    shelf: &mut S,
    name: &str,
    limit: usize,
) -> Result<Vec<u8>, ReadErr>
    ensures { ReadAll S.told name.now limit (S.view shelf.old) (S.view shelf.new) result }
{
    shelf.open_file(name)?;
    let mut room = vec![in alloc; 0u8; BUFFER_BYTES]?;
    let buffer = room.as_mut_slice();
    let mut text = Vec::new(alloc);
    'turns: loop {
        let count = shelf.read(buffer)?;
        if count == 0 {
            break;
        }
        if count > limit - text.len() {
            return Err(ReadErr::TooLong);
        }
        text.extend_from_slice(&buffer[..count])?;
    }
    shelf.close_file()?;
    Ok(text)
}

/// Makes a file anew and writes all the bytes to it, for `put_file` to put it under its name.
///
/// After an `Err` the file may still be in hand; the next file opened or created takes its place.
pub fn write_all<S: Shelf>(shelf: &mut S, name: &str, bytes: &[u8]) -> Result<(), WriteErr>
    ensures { WriteAll S.told name.now bytes.now (S.view shelf.old) (S.view shelf.new) result }
{
    shelf.create_file(name)?;
    let mut done = 0;
    'turns: while done < bytes.len() {
        let count = shelf.write(&bytes[done..])?;
        done += count;
    }
    Ok(shelf.close_file()?)
}
