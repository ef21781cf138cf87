//! A recording's first fault, and its words.

ghost use Rattle.std.specs.Prelude.{◌≡◌, Some};
ghost use Rattle.recording_reader.specs.RecordingFault.{place_of, text_of};

use std::fmt;

/// Why a recording is refused. `at` is the byte, from 0, of the first byte of the word at fault. Its `Display` has the
/// words.
#[derive(Clone, Copy, Debug, PartialEq, Eq)]
pub enum RecordingFault {
    /// The word may not stand here.
    Syntax { at: usize },
    /// A change of a code that isn't declared.
    UnknownCode { at: usize },
    /// A time less than the one before.
    TimeBack { at: usize },
    /// A width outside 1 to 2^20, a second width of a code, or more digits than the width.
    Width { at: usize },
    /// A dump is switched off or on.
    DumpOff { at: usize },
    /// The bytes end where more must come; `at` is the length of the text.
    Truncated { at: usize },
}

impl RecordingFault {
    /// The byte that is refused, counted from 0.
    pub fn at(&self) -> usize
        ensures { result ≡ place_of self.now }
    {
        match *self {
            RecordingFault::Syntax { at } => at,
            RecordingFault::UnknownCode { at } => at,
            RecordingFault::TimeBack { at } => at,
            RecordingFault::Width { at } => at,
            RecordingFault::DumpOff { at } => at,
            RecordingFault::Truncated { at } => at,
        }
    }
}

impl fmt::Display for RecordingFault {
    ghost output = { λ fault. Some (text_of fault) };

    fn fmt<W: fmt::Write>(&self, f: &mut fmt::Formatter<W>) -> fmt::Result {
        match self {
            RecordingFault::Syntax { .. } => f.write_str("syntax"),
            RecordingFault::UnknownCode { .. } => f.write_str("unknown code"),
            RecordingFault::TimeBack { .. } => f.write_str("time goes back"),
            RecordingFault::Width { .. } => f.write_str("width"),
            RecordingFault::DumpOff { .. } => f.write_str("dump off"),
            RecordingFault::Truncated { .. } => f.write_str("truncated"),
        }
    }
}
