//! Why there are no forces of a code text.

ghost use Rattle.std.specs.Prelude.{◌≡◌};
ghost use Rattle.replay_code.specs.declared.refusal.CodeErr.TheVariants.{Memory as NoMemory, Refused as IsRefused};

use crate::fault::CodeFault;
use base_lists::Memory as OutOfMemory;
use std::alloc::{AllocError, AllocFailed};

/// Why there are no forces of a code text.
#[derive(Clone, Copy, Debug, PartialEq, Eq)]
pub enum CodeErr {
    /// The text's first fault.
    Refused(CodeFault),
    /// There was no memory.
    Memory,
}

impl From<CodeFault> for CodeErr {
    ghost from_gives = { λ fault refusal. refusal ≡ IsRefused fault };

    fn from(fault: CodeFault) -> Self {
        CodeErr::Refused(fault)
    }
}

impl From<OutOfMemory> for CodeErr {
    ghost from_gives = { λ _ refusal. refusal ≡ NoMemory };

    fn from(_: OutOfMemory) -> Self {
        CodeErr::Memory
    }
}

impl From<AllocError> for CodeErr {
    ghost from_gives = { λ _ refusal. refusal ≡ NoMemory };

    fn from(_: AllocError) -> Self {
        CodeErr::Memory
    }
}

impl<T: Drop> From<AllocFailed<T>> for CodeErr {
    ghost from_gives = { λ _ refusal. refusal ≡ NoMemory };

    fn from(_: AllocFailed<T>) -> Self {
        CodeErr::Memory
    }
}
