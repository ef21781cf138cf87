//! Why a text isn't trimmed.

use base_lists::{Items, Memory};
use netlist_tokens::LexErr;
use std::alloc::{AllocError, AllocFailed};

/// Why a text isn't trimmed. `at` is a byte, counted from 0.
#[derive(Debug, Drop)]
pub enum TrimFault {
    /// No token begins at a byte.
    Token(LexErr),
    /// The definition that begins here isn't closed.
    Open { at: usize },
    /// No definition has the top's name.
    NoTop { name: Items<u8> },
}

/// Why there is no trimmed text.
#[derive(Debug, Drop)]
pub enum TrimErr {
    /// The text isn't one that can be trimmed.
    Refused(TrimFault),
    /// There was no memory.
    Memory,
}

impl From<LexErr> for TrimErr {
    ghost use Rattle.std.specs.Prelude.{◌≡◌};
    ghost use Rattle.netlist_trim.specs.declared.fault.TrimErr.TheVariants.{Refused};
    ghost use Rattle.netlist_trim.specs.declared.fault.TrimFault.TheVariants.{Token};

    ghost from_gives = { λ e made. made ≡ Refused (Token e) };

    fn from(fault: LexErr) -> Self {
        TrimErr::Refused(TrimFault::Token(fault))
    }
}

impl From<Memory> for TrimErr {
    ghost use Rattle.std.specs.Prelude.{◌≡◌};
    ghost use Rattle.netlist_trim.specs.declared.fault.TrimErr.TheVariants.{Memory as OutOfMemory};

    ghost from_gives = { λ _ made. made ≡ OutOfMemory };

    fn from(_: Memory) -> Self {
        TrimErr::Memory
    }
}

impl From<AllocError> for TrimErr {
    ghost use Rattle.std.specs.Prelude.{◌≡◌};
    ghost use Rattle.netlist_trim.specs.declared.fault.TrimErr.TheVariants.{Memory as OutOfMemory};

    ghost from_gives = { λ _ made. made ≡ OutOfMemory };

    fn from(_: AllocError) -> Self {
        TrimErr::Memory
    }
}

impl<T: Drop> From<AllocFailed<T>> for TrimErr {
    ghost use Rattle.std.specs.Prelude.{◌≡◌};
    ghost use Rattle.netlist_trim.specs.declared.fault.TrimErr.TheVariants.{Memory as OutOfMemory};

    ghost from_gives = { λ _ made. made ≡ OutOfMemory };

    fn from(_: AllocFailed<T>) -> Self {
        TrimErr::Memory
    }
}
