//! Why a command is refused before its first output.

use base_lists::Memory;
use std::alloc::{AllocError, AllocFailed};

/// Why a command is refused before its first output, for the causes `C` of its texts.
#[derive(Drop)]
pub enum Refusal<C> {
    /// A call on an input file failed.
    Read { name: String },
    /// The text of an input has too many bytes.
    Long { cause: C },
    /// The texts are refused.
    Text { cause: C },
    /// There was no memory.
    Memory,
}

impl<C> From<Memory> for Refusal<C> {
    ghost use Rattle.std.specs.Prelude.{◌≡◌};
    ghost use Rattle.base_run.specs.declared.refusal.Refusal.TheVariants.{Memory as OutOfMemory};

    ghost from_gives = { λ _ refusal. refusal ≡ OutOfMemory };

    fn from(_: Memory) -> Self {
        Refusal::Memory
    }
}

impl<C> From<AllocError> for Refusal<C> {
    ghost use Rattle.std.specs.Prelude.{◌≡◌};
    ghost use Rattle.base_run.specs.declared.refusal.Refusal.TheVariants.{Memory as OutOfMemory};

    ghost from_gives = { λ _ refusal. refusal ≡ OutOfMemory };

    fn from(_: AllocError) -> Self {
        Refusal::Memory
    }
}

impl<C, T: Drop> From<AllocFailed<T>> for Refusal<C> {
    ghost use Rattle.std.specs.Prelude.{◌≡◌};
    ghost use Rattle.base_run.specs.declared.refusal.Refusal.TheVariants.{Memory as OutOfMemory};

    ghost from_gives = { λ _ refusal. refusal ≡ OutOfMemory };

    fn from(_: AllocFailed<T>) -> Self {
        Refusal::Memory
    }
}
