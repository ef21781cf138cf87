//! Why starts can't be set.

ghost use Rattle.std.specs.Prelude.{◌≡◌, Some};
ghost use Rattle.report_fix.specs.Fault.{fault_words};
ghost use Rattle.report_fix.specs.declared.refusal.FixErr.TheVariants.{Memory as NoMemory, Refused as IsRefused};

use base_lists::Memory;
use std::alloc::AllocError;
use std::fmt;

/// Why a piece can't be set. Pieces are numbered from 1. Its `Display` has the words.
#[derive(Clone, Copy, Debug, PartialEq, Eq)]
pub enum StartFault {
    /// The name isn't that of a register.
    NoRegister { index: usize },
    /// An earlier piece has the name.
    Twice { index: usize },
    /// The register's start isn't x.
    KnownStart { index: usize },
}

impl StartFault {
    ghost use Rattle.report_fix.specs.Fault.{number_of};

    /// The number of the piece.
    pub fn index(&self) -> usize
        ensures { result ≡ number_of self.now }
    {
        match *self {
            StartFault::NoRegister { index } => index,
            StartFault::Twice { index } => index,
            StartFault::KnownStart { index } => index,
        }
    }
}

impl fmt::Display for StartFault {
    ghost output = { λ fault. Some (fault_words fault) };

    fn fmt<W: fmt::Write>(&self, f: &mut fmt::Formatter<W>) -> fmt::Result {
        match self {
            StartFault::NoRegister { .. } => f.write_str("no register"),
            StartFault::Twice { .. } => f.write_str("twice"),
            StartFault::KnownStart { .. } => f.write_str("known start"),
        }
    }
}

/// Why there is no stimulus with set starts.
#[derive(Clone, Copy, Debug, PartialEq, Eq)]
pub enum FixErr {
    /// The first piece at fault.
    Refused(StartFault),
    /// There was no memory.
    Memory,
}

impl From<StartFault> for FixErr {
    ghost from_gives = { λ fault refusal. refusal ≡ IsRefused fault };

    fn from(fault: StartFault) -> Self {
        FixErr::Refused(fault)
    }
}

impl From<Memory> for FixErr {
    ghost from_gives = { λ _ refusal. refusal ≡ NoMemory };

    fn from(_: Memory) -> Self {
        FixErr::Memory
    }
}

impl From<AllocError> for FixErr {
    ghost from_gives = { λ _ refusal. refusal ≡ NoMemory };

    fn from(_: AllocError) -> Self {
        FixErr::Memory
    }
}
