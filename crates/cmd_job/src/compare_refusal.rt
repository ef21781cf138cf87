//! Why a recording is refused when the replay of its inputs is compared with it.

use base_lists::Memory;
use design_cell::Value;
use design_circuit::Bytes;

/// The first fault of a recording when the replay of its inputs is compared with it. A time is in the recording's
/// ticks.
#[derive(Debug, Drop)]
pub enum CompareRefusal {
    /// A bit whose recorded value isn't what the replay shows at the moment's last round, by its net's written name.
    Disagrees {
        time: u64,
        name: Bytes,
        recorded: Value,
        replayed: Value,
    },
    /// A register whose update after the moment's last round isn't what it keeps there, by its net's written name.
    Unsettled {
        time: u64,
        name: Bytes,
        kept: Value,
        next: Value,
    },
}

/// Why there is no replay that agrees with a recording.
#[derive(Debug, Drop)]
pub enum CompareErr {
    Refused(CompareRefusal),
    /// There was no memory.
    Memory,
}

impl CompareRefusal {
    ghost use Rattle.std.specs.Prelude.{◌≡◌};
    ghost use Rattle.cmd_job.specs.Lines.{compare_status};

    /// The exit status of a run that is refused so.
    pub fn status(&self) -> u8
        ensures { result ≡ compare_status self.now }
    {
        match self {
            CompareRefusal::Disagrees { .. } => 8,
            CompareRefusal::Unsettled { .. } => 9,
        }
    }
}

impl From<Memory> for CompareErr {
    ghost use Rattle.std.specs.Prelude.{◌≡◌};
    ghost use Rattle.cmd_job.specs.declared.compare_refusal.CompareErr.TheVariants.{Memory as OutOfMemory};

    ghost from_gives = { λ _ e. e ≡ OutOfMemory };

    fn from(_: Memory) -> Self {
        CompareErr::Memory
    }
}
