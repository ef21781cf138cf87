//! The words of the command line.

ghost use Rattle.std.specs.Prelude.{◌≡◌};
ghost use Rattle.base_run.specs.Ends.{LinePrinted, MemoryPrinted};
ghost use Rattle.base_run.specs.Lines.{usage_line};
ghost use Rattle.base_files.specs.declared.words.NoWords.TheVariants.{NotText, Memory as OutOfMemory};

use base_run::{refuse_memory, refuse_words};
use base_shelf::Sink;
use std::{env, io};

/// Why the words of the command line can't be had.
#[derive(Clone, Copy, Debug)]
pub enum NoWords {
    /// One is no UTF-8. No line of the set has such a word.
    NotText,
    /// There was no memory.
    Memory,
}

/// The words of the command line after the program's name.
pub fn words_of(rt: &HostRuntime) -> Result<Vec<String>, NoWords> {
    match env::args(rt) {
        Ok(words) => match words.skip(1).collect(rt.alloc()) {
            Ok(words) => Ok(words),
            Err(_) => Err(NoWords::Memory),
        },
        Err(error) => match error.kind() {
            io::ErrorKind::OutOfMemory => Err(NoWords::Memory),
            _ => Err(NoWords::NotText),
        },
    }
}

/// Reports that the words can't be had, and answers the exit status: 2 where one is no UTF-8, else 20.
pub fn refuse<O: Sink>(out: &mut O, fault: NoWords) -> u8
    ensures text { fault ≡ NotText → LinePrinted O.told usage_line 2 (O.view out.old) (O.view out.new) result }
    ensures memory { fault ≡ OutOfMemory → MemoryPrinted O.told (O.view out.old) (O.view out.new) result }
{
    match fault {
        NoWords::NotText => refuse_words(out),
        NoWords::Memory => refuse_memory(out),
    }
}
