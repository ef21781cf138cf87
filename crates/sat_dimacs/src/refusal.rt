//! Why a text isn't read.

ghost use Rattle.std.specs.Prelude.{◌≡◌};
ghost use Rattle.sat_dimacs.specs.declared.refusal.DimacsErr.TheVariants.{Memory as NoMemory, Refused as IsRefused};

use crate::fault::DimacsFault;
use std::alloc::{AllocError, AllocFailed};

/// Why a text isn't read.
#[derive(Clone, Copy, Debug, PartialEq, Eq)]
pub enum DimacsErr {
    /// The text's first fault.
    Refused(DimacsFault),
    /// There was no memory.
    Memory,
}

impl From<DimacsFault> for DimacsErr {
    ghost from_gives = { λ fault refusal. refusal ≡ IsRefused fault };

    fn from(fault: DimacsFault) -> Self {
        DimacsErr::Refused(fault)
    }
}

impl From<AllocError> for DimacsErr {
    ghost from_gives = { λ _ refusal. refusal ≡ NoMemory };

    fn from(_: AllocError) -> Self {
        DimacsErr::Memory
    }
}

impl<T: Drop> From<AllocFailed<T>> for DimacsErr {
    ghost from_gives = { λ _ refusal. refusal ≡ NoMemory };

    fn from(_: AllocFailed<T>) -> Self {
        DimacsErr::Memory
    }
}
