//! The faults of a recording beside the replay.

use base_lists::Memory;
use design_cell::Value;

/// The first fault of a recording beside the replay of its inputs.
#[derive(Clone, Copy, Debug, PartialEq, Eq)]
pub enum Differ {
    /// A register whose update after the moment's last round isn't what it keeps there.
    Unsettled {
        net: u32,
        moment: u32,
        kept: Value,
        next: Value,
    },
    /// A bit, counted from the left, whose recorded value isn't what the replay shows at the moment's last round. The
    /// variable has its number in the recording.
    Disagrees {
        variable: u32,
        bit: u32,
        moment: u32,
        recorded: Value,
        replayed: Value,
    },
}

/// Why a recording isn't found to agree with the replay of its inputs.
#[derive(Clone, Copy, Debug, PartialEq, Eq)]
pub enum DifferErr {
    /// It doesn't: the first fault.
    Differs(Differ),
    /// There was no memory.
    Memory,
}

impl From<Differ> for DifferErr {
    ghost use Rattle.std.specs.Prelude.{◌≡◌};
    ghost use Rattle.replay_history.specs.declared.differ.DifferErr.TheVariants.{Differs};

    ghost from_gives = { λ differ e. e ≡ Differs differ };

    fn from(differ: Differ) -> Self {
        DifferErr::Differs(differ)
    }
}

impl From<Memory> for DifferErr {
    ghost use Rattle.std.specs.Prelude.{◌≡◌};
    ghost use Rattle.replay_history.specs.declared.differ.DifferErr.TheVariants.{Memory as OutOfMemory};

    ghost from_gives = { λ _ e. e ≡ OutOfMemory };

    fn from(_: Memory) -> Self {
        DifferErr::Memory
    }
}
