//! Why a recording is refused.

use base_lists::Memory;
use design_circuit::Bytes;
use recording_reader::{RecordingFault, VcdErr};

/// Why a recording of a design is refused: the first cause, in this order.
#[derive(Debug, Drop)]
pub enum RecordingRefusal {
    /// The text is none of the grammar.
    Grammar { fault: RecordingFault },
    /// No scope of the recording has the scope path, which is this word.
    NoScope { name: Bytes },
    /// The first variable whose width or range isn't that of the nets that it names: its scopes below the scope path
    /// and its reference, joined by dots.
    RangeDiffers { name: Bytes },
    /// The least net that is an input and is no bit of a bound variable, by its written name.
    MissingInput { name: Bytes },
    /// More places than the most, and how many.
    TooLarge { places: u64 },
}

/// Why there is no recording of a design.
#[derive(Debug, Drop)]
pub enum RecordingErr {
    Refused(RecordingRefusal),
    /// There was no memory.
    Memory,
}

impl RecordingRefusal {
    ghost use Rattle.std.specs.Prelude.{◌≡◌};
    ghost use Rattle.cmd_job.specs.Lines.{recording_status};

    /// The exit status of a run that is refused so.
    pub fn status(&self) -> u8
        ensures { result ≡ recording_status self.now }
    {
        match self {
            RecordingRefusal::Grammar { .. } => 7,
            RecordingRefusal::NoScope { .. } => 7,
            RecordingRefusal::RangeDiffers { .. } => 7,
            RecordingRefusal::MissingInput { .. } => 7,
            RecordingRefusal::TooLarge { .. } => 11,
        }
    }
}

impl From<VcdErr> for RecordingErr {
    ghost use Rattle.std.specs.Prelude.{◌≡◌};
    ghost use Rattle.cmd_job.specs.Refusals.{recording_err};

    ghost from_gives = { λ cause e. e ≡ recording_err cause };

    fn from(cause: VcdErr) -> Self {
        match cause.fault() {
            Some(fault) => RecordingErr::Refused(RecordingRefusal::Grammar { fault }),
            None => RecordingErr::Memory,
        }
    }
}

impl From<Memory> for RecordingErr {
    ghost use Rattle.std.specs.Prelude.{◌≡◌};
    ghost use Rattle.cmd_job.specs.declared.recording_refusal.RecordingErr.TheVariants.{Memory as OutOfMemory};

    ghost from_gives = { λ _ e. e ≡ OutOfMemory };

    fn from(_: Memory) -> Self {
        RecordingErr::Memory
    }
}
