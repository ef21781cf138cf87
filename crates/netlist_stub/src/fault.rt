//! Why there is no stub.

use base_lists::Memory;
use netlist_trim::{TrimErr, TrimFault};
use std::alloc::{AllocError, AllocFailed};

/// Why a text has no stubs. `at` is a byte, counted from 0.
#[derive(Debug, Drop)]
pub enum StubFault {
    /// What it defines isn't read, or it has no module of a name.
    Text(TrimFault),
    /// A token of a module's header or of a declaration that doesn't come here.
    Unexpected { at: usize },
    /// The range of a port that begins here isn't worked out.
    Range { at: usize },
    /// An inout port that isn't among the supplies.
    Supply { at: usize },
    /// A port of the header that has no direction.
    Undirected { at: usize },
}

/// Why there is no text with stubs.
#[derive(Debug, Drop)]
pub enum StubErr {
    /// The text has none.
    Refused(StubFault),
    /// There was no memory.
    Memory,
}

impl From<TrimErr> for StubErr {
    ghost use Rattle.std.specs.Prelude.{◌≡◌};
    ghost use Rattle.netlist_stub.specs.Stubs.{text_err};

    ghost from_gives = { λ e made. made ≡ text_err e };

    fn from(fault: TrimErr) -> Self {
        match fault {
            TrimErr::Refused(fault) => StubErr::Refused(StubFault::Text(fault)),
            TrimErr::Memory => StubErr::Memory,
        }
    }
}

impl From<StubFault> for StubErr {
    ghost use Rattle.std.specs.Prelude.{◌≡◌};
    ghost use Rattle.netlist_stub.specs.declared.fault.StubErr.TheVariants.{Refused};

    ghost from_gives = { λ e made. made ≡ Refused e };

    fn from(fault: StubFault) -> Self {
        StubErr::Refused(fault)
    }
}

impl From<Memory> for StubErr {
    ghost use Rattle.std.specs.Prelude.{◌≡◌};
    ghost use Rattle.netlist_stub.specs.declared.fault.StubErr.TheVariants.{Memory as OutOfMemory};

    ghost from_gives = { λ _ made. made ≡ OutOfMemory };

    fn from(_: Memory) -> Self {
        StubErr::Memory
    }
}

impl From<AllocError> for StubErr {
    ghost use Rattle.std.specs.Prelude.{◌≡◌};
    ghost use Rattle.netlist_stub.specs.declared.fault.StubErr.TheVariants.{Memory as OutOfMemory};

    ghost from_gives = { λ _ made. made ≡ OutOfMemory };

    fn from(_: AllocError) -> Self {
        StubErr::Memory
    }
}

impl<T: Drop> From<AllocFailed<T>> for StubErr {
    ghost use Rattle.std.specs.Prelude.{◌≡◌};
    ghost use Rattle.netlist_stub.specs.declared.fault.StubErr.TheVariants.{Memory as OutOfMemory};

    ghost from_gives = { λ _ made. made ≡ OutOfMemory };

    fn from(_: AllocFailed<T>) -> Self {
        StubErr::Memory
    }
}
