//! Why a text is no certificate.

ghost use Rattle.std.specs.Prelude.{◌≡◌};
ghost use Rattle.cert_reader.specs.Reading.{refusal_at};

use base_lists::Memory;
use std::alloc::{AllocError, AllocFailed};

/// The first wrong line of a text, by its number from 1.
#[derive(Clone, Copy, Debug, PartialEq, Eq)]
pub struct WrongLine {
    pub line: usize,
}

/// Why a text isn't read.
#[derive(Clone, Copy, Debug, PartialEq, Eq)]
pub enum TextErr {
    /// It is no certificate: this line is the first wrong one.
    Refused(WrongLine),
    /// There was no memory.
    Memory,
}

/// Why a line stands for nothing.
#[derive(Clone, Copy, Debug, PartialEq, Eq)]
pub enum LineErr {
    /// It is none of the grammar.
    Wrong,
    /// There was no memory.
    Memory,
}

impl LineErr {
    /// The refusal of the line with this number.
    pub(crate) fn at(self, number: usize) -> TextErr
        ensures { result ≡ refusal_at number self }
    {
        match self {
            LineErr::Wrong => TextErr::Refused(WrongLine { line: number }),
            LineErr::Memory => TextErr::Memory,
        }
    }
}

impl From<Memory> for LineErr {
    ghost use Rattle.std.specs.Prelude.{◌≡◌};
    ghost use Rattle.cert_reader.specs.declared.refusal.LineErr.TheVariants.{Memory as OutOfMemory};

    ghost from_gives = { λ _ refusal. refusal ≡ OutOfMemory };

    fn from(_: Memory) -> Self {
        LineErr::Memory
    }
}

impl From<AllocError> for LineErr {
    ghost use Rattle.std.specs.Prelude.{◌≡◌};
    ghost use Rattle.cert_reader.specs.declared.refusal.LineErr.TheVariants.{Memory as OutOfMemory};

    ghost from_gives = { λ _ refusal. refusal ≡ OutOfMemory };

    fn from(_: AllocError) -> Self {
        LineErr::Memory
    }
}

impl<T: Drop> From<AllocFailed<T>> for LineErr {
    ghost use Rattle.std.specs.Prelude.{◌≡◌};
    ghost use Rattle.cert_reader.specs.declared.refusal.LineErr.TheVariants.{Memory as OutOfMemory};

    ghost from_gives = { λ _ refusal. refusal ≡ OutOfMemory };

    fn from(_: AllocFailed<T>) -> Self {
        LineErr::Memory
    }
}

impl From<AllocError> for TextErr {
    ghost use Rattle.std.specs.Prelude.{◌≡◌};
    ghost use Rattle.cert_reader.specs.declared.refusal.TextErr.TheVariants.{Memory as OutOfMemory};

    ghost from_gives = { λ _ refusal. refusal ≡ OutOfMemory };

    fn from(_: AllocError) -> Self {
        TextErr::Memory
    }
}

impl<T: Drop> From<AllocFailed<T>> for TextErr {
    ghost use Rattle.std.specs.Prelude.{◌≡◌};
    ghost use Rattle.cert_reader.specs.declared.refusal.TextErr.TheVariants.{Memory as OutOfMemory};

    ghost from_gives = { λ _ refusal. refusal ≡ OutOfMemory };

    fn from(_: AllocFailed<T>) -> Self {
        TextErr::Memory
    }
}
