//! Why the variables of a recording aren't bound.

ghost use Rattle.std.specs.Prelude.{◌≡◌, Some};
ghost use Rattle.recording_binding.specs.Words.{text_of};
ghost use Rattle.recording_binding.specs.declared.refusal.BindErr.TheVariants.{Memory as OutOfMemory};

use base_lists::Memory;
use std::alloc::{AllocError, AllocFailed};
use std::fmt;

/// What keeps the variables of a recording from being bound: the first cause, in this order. Its `Display` has the
/// words, without the name that follows some.
#[derive(Clone, Copy, Debug, PartialEq, Eq)]
pub enum BindErr {
    /// No scope of the recording has the scope path.
    NoScope,
    /// The first variable whose width or range isn't that of the nets that it names, by its number.
    RangeDiffers { variable: u32 },
    /// The least net that is an input and is no bit of a bound variable.
    MissingInput { net: u32 },
    /// More places than the most: so many.
    TooLarge { places: u64 },
    /// There was no memory.
    Memory,
}

impl From<AllocError> for BindErr {
    ghost from_gives = { λ _ refusal. refusal ≡ OutOfMemory };

    fn from(_: AllocError) -> Self {
        BindErr::Memory
    }
}

impl<T: Drop> From<AllocFailed<T>> for BindErr {
    ghost from_gives = { λ _ refusal. refusal ≡ OutOfMemory };

    fn from(_: AllocFailed<T>) -> Self {
        BindErr::Memory
    }
}

impl From<Memory> for BindErr {
    ghost from_gives = { λ _ refusal. refusal ≡ OutOfMemory };

    fn from(_: Memory) -> Self {
        BindErr::Memory
    }
}

impl fmt::Display for BindErr {
    ghost output = { λ refusal. Some (text_of refusal) };

    fn fmt<W: fmt::Write>(&self, f: &mut fmt::Formatter<W>) -> fmt::Result {
        match self {
            BindErr::NoScope => f.write_str("no scope"),
            BindErr::RangeDiffers { .. } => f.write_str("range differs"),
            BindErr::MissingInput { .. } => f.write_str("missing input"),
            BindErr::TooLarge { places } => write!(f, "too large places {places}"),
            BindErr::Memory => f.write_str("memory"),
        }
    }
}
