//! Why a walk ends before its last place.

use base_lists::Memory;
use std::alloc::AllocError;
use wave_proved::{AdvanceErr, Optimistic};

/// Why a walk ends early.
#[derive(Debug, Drop)]
pub enum RepairErr {
    /// A place that the history knows is found otherwise.
    Optimistic(Optimistic),
    /// There was no memory.
    Memory,
}

impl From<AdvanceErr> for RepairErr {
    ghost use Rattle.std.specs.Prelude.{◌≡◌};
    ghost use Rattle.decide_repair.specs.Step.{stopped_by};

    ghost from_gives = { λ err refusal. refusal ≡ stopped_by err };

    fn from(err: AdvanceErr) -> Self {
        match err {
            AdvanceErr::Optimistic(optimistic) => RepairErr::Optimistic(optimistic),
            AdvanceErr::Memory => RepairErr::Memory,
        }
    }
}

impl From<Memory> for RepairErr {
    ghost use Rattle.std.specs.Prelude.{◌≡◌};
    ghost use Rattle.decide_repair.specs.declared.refusal.RepairErr.TheVariants.{Memory as OutOfMemory};

    ghost from_gives = { λ _ refusal. refusal ≡ OutOfMemory };

    fn from(_: Memory) -> Self {
        RepairErr::Memory
    }
}

impl From<AllocError> for RepairErr {
    ghost use Rattle.std.specs.Prelude.{◌≡◌};
    ghost use Rattle.decide_repair.specs.declared.refusal.RepairErr.TheVariants.{Memory as OutOfMemory};

    ghost from_gives = { λ _ refusal. refusal ≡ OutOfMemory };

    fn from(_: AllocError) -> Self {
        RepairErr::Memory
    }
}
