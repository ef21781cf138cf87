//! Reading values moment by moment.

ghost use Rattle.std.specs.Prelude.{◌≡◌, ◌<◌, length, IfOk};

use crate::recording::Recording;
use base_lists::Memory;
use design_cell::Value;
use std::alloc::Global;
use std::marker::Model;

/// A reader of a recording's values that keeps, for each variable, how many of its changes come up to the moment it was
/// read in last: 8 bytes for each.
#[derive(Drop)]
pub struct Cursor<'a> {
    recording: &'a Recording,
    hints: Vec<usize>,
}

impl<'a> Model for Cursor<'a> {
    ghost use Rattle.recording_reader.specs.Recording.{Recording};

    ghost Value = { Recording };

    ghost view = { λ c. c.recording.now };
}

impl<'a> Cursor<'a> {
    ghost use Rattle.std.specs.Prelude.{◌≡◌, ◌<◌, length, IfOk};
    ghost use Rattle.recording_reader.specs.Recording.{IsValueAt, value_at, width_at};

    /// A cursor of a recording.
    pub fn new(alloc: Global, recording: &'a Recording) -> Result<Cursor<'a>, Memory>
        ensures { IfOk result (λ cursor. cursor ≡ recording.now) }
    {
        let count = recording.variables().len();
        let hints = vec![in alloc; 0usize; count]?;
        Ok(Cursor { recording, hints })
    }

    /// The recording that it reads.
    pub fn recording(&self) -> &'a Recording
        ensures { result.now ≡ self.now }
    {
        self.recording
    }

    /// The value of a bit of a variable, counted from the left, in a moment, any moment. Takes no memory, and constant
    /// time on average where the moments of each variable ascend.
    pub fn value(&mut self, variable: u32, bit: u32, moment: u32) -> Value
        requires variable { variable < length self.old.variables }
        requires bit { bit < width_at self.old variable }
        requires moment { moment < length self.old.times }
        ensures value { result ≡ value_at self.old variable bit moment }
        ensures last { IsValueAt self.old variable bit moment result }
        ensures same { self.new ≡ self.old }
    {
        let hint = match self.hints.get(variable as usize) {
            Some(hint) => *hint,
            None => usize::MAX,
        };
        let (value, next) = self.recording.value_near(variable, bit, moment, hint);
        if let Some(kept) = self.hints.get_mut(variable as usize) {
            *kept = next;
        }
        value
    }
}
