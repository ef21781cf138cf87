//! The variables that change in each moment.

ghost use Rattle.std.specs.Prelude.{◌≡◌, ◌<◌, length, IfOk};
ghost use Rattle.recording_moments.specs.Tables.{AreBounds, part_at};

use crate::counts::starts_of;
use crate::places::variables_of;
use base_lists::Memory;
use recording_reader::Recording;
use std::alloc::Global;
use std::marker::Model;

/// The variables that change in each moment of a recording: 4 bytes for each change of each variable, and 8 for each
/// moment.
#[derive(Drop)]
pub struct ChangesByMoment<'a> {
    recording: &'a Recording,
    starts: Vec<usize>,
    variables: Vec<u32>,
}

impl<'a> Model for ChangesByMoment<'a> {
    ghost use Rattle.std.specs.Prelude.{length};
    ghost use Rattle.recording_reader.specs.Recording.{Recording};
    ghost use Rattle.recording_moments.specs.Tables.{IsMomentTable};

    ghost Value = { Recording };

    ghost view = { λ c. c.recording.now };

    ghost invariant = { λ c. IsMomentTable c.recording.now (length c.recording.now.times) c.starts.items c.variables.items };
}

impl<'a> ChangesByMoment<'a> {
    ghost use Rattle.std.specs.Prelude.{◌≡◌, ◌<◌, length, IfOk};
    ghost use Rattle.recording_moments.specs.Changed.{AreChanged};

    /// The changes of a recording by moment, in time by how many there are of all variables. More than 2^32 - 1 in one
    /// moment count as out of memory. While they are sorted, 8 bytes more are taken for each moment.
    pub fn new(alloc: Global, recording: &'a Recording) -> Result<ChangesByMoment<'a>, Memory>
        ensures { IfOk result (λ changes. changes ≡ recording.now) }
    {
        let starts = starts_of(alloc, recording)?;
        let variables = variables_of(alloc, recording, starts.as_slice())?;
        Ok(ChangesByMoment {
            recording,
            starts,
            variables,
        })
    }

    /// The recording whose changes these are.
    pub fn recording(&self) -> &'a Recording
        ensures { result.now ≡ self.now }
    {
        self.recording
    }

    /// The variables of which the text has a change in a moment, in any order, some perhaps more than once.
    pub fn changed(&self, moment: u32) -> &[u32]
        requires { moment < length self.now.times }
        ensures { AreChanged self.now moment result.now }
    {
        part_at(
            self.variables.as_slice(),
            self.starts.as_slice(),
            moment as usize,
        )
    }
}

/// The part of a moment.
fn part_at<'a>(variables: &'a [u32], starts: &[usize], moment: usize) -> &'a [u32]
    requires { AreBounds (length variables.now) starts.now moment }
    ensures { result.now ≡ part_at variables.now starts.now moment }
{
    &variables[starts[moment]..starts[moment + 1]]
}
