//! What goes wrong outside.

ghost use Rattle.std.specs.Prelude.{◌≡◌};
ghost use Rattle.base_shelf.specs.Errors.{read_err, write_err};
ghost use Rattle.base_shelf.specs.declared.fault.IoErr.TheVariants.{Memory as OutOfCall};
ghost use Rattle.base_shelf.specs.declared.fault.ReadErr.TheVariants.{Memory as OutOfRead};

use base_lists::Memory;
use std::alloc::AllocError;

/// Why a call of a shelf or a sink failed.
#[derive(Clone, Copy, Debug, PartialEq, Eq)]
pub enum IoErr {
    /// The outside refused; the count of faults says so.
    Failed,
    /// There was no memory.
    Memory,
}

/// Why a whole file wasn't read.
#[derive(Clone, Copy, Debug, PartialEq, Eq)]
pub enum ReadErr {
    /// A call on the file failed.
    Fault,
    /// The file gives more bytes than the limit.
    TooLong,
    /// There was no memory.
    Memory,
}

/// Why a whole file wasn't written, or a text not printed.
#[derive(Clone, Copy, Debug, PartialEq, Eq)]
pub enum WriteErr {
    /// A call on the file or the sink failed.
    Fault,
    /// There was no memory.
    Memory,
}

impl From<AllocError> for IoErr {
    ghost from_gives = { λ _ to. to ≡ OutOfCall };

    fn from(_: AllocError) -> Self {
        IoErr::Memory
    }
}

impl From<Memory> for IoErr {
    ghost from_gives = { λ _ to. to ≡ OutOfCall };

    fn from(_: Memory) -> Self {
        IoErr::Memory
    }
}

impl From<IoErr> for ReadErr {
    ghost from_gives = { λ from to. to ≡ read_err from };

    fn from(err: IoErr) -> Self {
        match err {
            IoErr::Failed => ReadErr::Fault,
            IoErr::Memory => ReadErr::Memory,
        }
    }
}

impl From<AllocError> for ReadErr {
    ghost from_gives = { λ _ to. to ≡ OutOfRead };

    fn from(_: AllocError) -> Self {
        ReadErr::Memory
    }
}

impl From<IoErr> for WriteErr {
    ghost from_gives = { λ from to. to ≡ write_err from };

    fn from(err: IoErr) -> Self {
        match err {
            IoErr::Failed => WriteErr::Fault,
            IoErr::Memory => WriteErr::Memory,
        }
    }
}
