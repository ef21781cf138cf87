//! Why a text is refused.

ghost use Rattle.std.specs.Prelude.{◌≡◌, ◌↔◌, None};
ghost use Rattle.recording_reader.specs.RecordingFault.{fault_of};
ghost use Rattle.recording_reader.specs.declared.refusal.VcdErr.TheVariants.{Memory as OutOfMemory};

use crate::fault::RecordingFault;
use base_lists::Memory;
use std::alloc::{AllocError, AllocFailed};

/// The first fault of a text. `at` is the byte, from 0, of the first byte of the word at fault.
#[derive(Clone, Copy, Debug, PartialEq, Eq)]
pub enum VcdErr {
    /// The word may not stand here.
    Syntax { at: usize },
    /// A change of a code that isn't declared.
    UnknownCode { at: usize },
    /// A time less than the one before.
    TimeBack { at: usize },
    /// A width outside 1 to 2^20, a second width of a code, or more digits than the width.
    Width { at: usize },
    /// A dump is switched off or on.
    DumpOff { at: usize },
    /// The bytes end where more must come; `at` is the length of the text.
    Truncated { at: usize },
    /// There was no memory.
    Memory,
}

impl VcdErr {
    /// The fault of the text, where it isn't out of memory.
    pub fn fault(self) -> Option<RecordingFault>
        ensures is { result ≡ fault_of self }
        ensures memory { (result ≡ None) ↔ (self ≡ OutOfMemory) }
    {
        match self {
            VcdErr::Syntax { at } => Some(RecordingFault::Syntax { at }),
            VcdErr::UnknownCode { at } => Some(RecordingFault::UnknownCode { at }),
            VcdErr::TimeBack { at } => Some(RecordingFault::TimeBack { at }),
            VcdErr::Width { at } => Some(RecordingFault::Width { at }),
            VcdErr::DumpOff { at } => Some(RecordingFault::DumpOff { at }),
            VcdErr::Truncated { at } => Some(RecordingFault::Truncated { at }),
            VcdErr::Memory => None,
        }
    }
}

impl From<AllocError> for VcdErr {
    ghost from_gives = { λ _ refusal. refusal ≡ OutOfMemory };

    fn from(_: AllocError) -> Self {
        VcdErr::Memory
    }
}

impl<T: Drop> From<AllocFailed<T>> for VcdErr {
    ghost from_gives = { λ _ refusal. refusal ≡ OutOfMemory };

    fn from(_: AllocFailed<T>) -> Self {
        VcdErr::Memory
    }
}

impl From<Memory> for VcdErr {
    ghost from_gives = { λ _ refusal. refusal ≡ OutOfMemory };

    fn from(_: Memory) -> Self {
        VcdErr::Memory
    }
}
