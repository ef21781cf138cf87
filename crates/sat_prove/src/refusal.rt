//! Why two texts aren't a proof.

ghost use Rattle.std.specs.Prelude.{◌≡◌};
ghost use Rattle.sat_prove.specs.Proof.{err_of_text};
ghost use Rattle.sat_prove.specs.declared.refusal.ProofErr.TheVariants.{Memory as NoMemory};

use crate::fault::ProofFault;
use base_lists::Memory;
use sat_dimacs::DimacsErr;
use std::alloc::AllocError;

/// Why two texts aren't a proof.
#[derive(Clone, Copy, Debug, PartialEq, Eq)]
pub enum ProofErr {
    /// Their first fault.
    Refused(ProofFault),
    /// There was no memory.
    Memory,
}

impl From<DimacsErr> for ProofErr {
    ghost from_gives = { λ text refusal. refusal ≡ err_of_text text };

    fn from(text: DimacsErr) -> Self {
        match text {
            DimacsErr::Refused(fault) => ProofErr::Refused(ProofFault::Text(fault)),
            DimacsErr::Memory => ProofErr::Memory,
        }
    }
}

impl From<Memory> for ProofErr {
    ghost from_gives = { λ _ refusal. refusal ≡ NoMemory };

    fn from(_: Memory) -> Self {
        ProofErr::Memory
    }
}

impl From<AllocError> for ProofErr {
    ghost from_gives = { λ _ refusal. refusal ≡ NoMemory };

    fn from(_: AllocError) -> Self {
        ProofErr::Memory
    }
}
