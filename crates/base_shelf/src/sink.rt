//! A sink of bytes, and whole texts printed to it.

ghost use Rattle.std.specs.Prelude.{◌≡◌, Bool};
ghost use Rattle.base_shelf.specs.Sink.{SinkView, SinkStep};
ghost use Rattle.base_shelf.specs.Calls.{PrintAll};

use crate::fault::{IoErr, WriteErr};

/// Where a program prints. Its count of faults rises only in a call that fails.
pub trait Sink {
    /// Whether the bytes are reported. No call changes it.
    ghost told: { Bool };

    /// What is seen of it.
    ghost view: { Self → SinkView };

    /// Takes the first of the bytes, and says how many.
    fn write(&mut self, bytes: &[u8]) -> Result<usize, IoErr>
        ensures { SinkStep told (view self.old) (view self.new) bytes.now result };

    /// Is told how far a long run has come: so many steps of all. A sink may show it to a person; what is seen of the
    /// sink stays as it was.
    fn progress(&mut self, done: usize, all: usize)
        ensures { view self.new ≡ view self.old };
}

/// Prints all the bytes.
pub fn print_all<O: Sink>(out: &mut O, bytes: &[u8]) -> Result<(), WriteErr>
    ensures { PrintAll O.told bytes.now (O.view out.old) (O.view out.new) result }
{
    let mut done = 0;
    'turns: while done < bytes.len() {
        let count = out.write(&bytes[done..])?;
        done += count;
    }
    Ok(())
}
