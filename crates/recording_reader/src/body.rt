//! The declarations, and the times and changes so far. `read_changes.rt` reads them.

ghost use Rattle.std.specs.Prelude.{◌≡◌, [], IfOk, replicate};
ghost use Rattle.recording_reader.specs.Changes.{undeclared};

use crate::bytes::{front_of, is_code, rest_of};
use crate::declarations::{Declarations, LIMIT};
use crate::recording::Recording;
use crate::refusal::VcdErr;
use base_lists::Memory;
use base_scan::number_within;
use recording_changes::Changes;
use recording_codes::Found;
use std::alloc::Global;
use std::marker::Model;

/// The declarations, and the times and changes so far.
#[derive(Drop)]
pub struct Body<'a> {
    declared: Declarations<'a>,
    times: Vec<u64>,
    changes: Changes,
}

impl<'a> Model for Body<'a> {
    ghost use Rattle.std.specs.Prelude.{◌≡◌, ◌≤◌, ◌-◌, length};
    ghost use Rattle.recording_reader.specs.Changes.{Body, IsBody};

    ghost Value = { Body };

    ghost view = { λ b. record { declared = b.declared; times = b.times.items; tracks = b.changes.tracks } };

    ghost invariant = { λ b. IsBody b.declared b.times.items b.changes };
}

/// No change of a given number of codes.
#[tactic(auto, using(std::proofs::lemmas::List::replicate_more))]
fn open_tracks(alloc: Global, count: usize) -> Result<Changes, Memory>
    ensures { IfOk result (λ changes. changes ≡ record { moment = 0; tracks = replicate count [] }) }
{
    let mut changes = Changes::new(alloc)?;
    for i in 0..count {
        changes.open(alloc)?;
    }
    Ok(changes)
}

impl<'a> Body<'a> {
    ghost use Rattle.std.specs.Prelude.{◌≡◌, ◌≤◌, ◌+◌, ◌<◌, ◌^◌, ℕ, Bool, false, List, [], ◌∷◌, length, IfOk, IfSome};
    ghost use Rattle.std.specs.Prelude.{OnOk, replicate};
    ghost use Rattle.recording_reader.specs.Bytes.{time_of, rest_of};
    ghost use Rattle.recording_reader.specs.Changes.{start, time_on, scalar_in, vector_in, real_in, changed};
    ghost use Rattle.recording_reader.specs.Changes.{recorded_so_far, with_moment, undeclared};
    ghost use Rattle.recording_codes.specs.Code.{find};
    ghost use Rattle.recording_reader.specs.Reading.{Gives, Does};
    ghost use Rattle.recording_reader.specs.Words.{word};

    pub fn new(declared: Declarations<'a>) -> Result<Body<'a>, Memory>
        ensures { IfOk result (λ b. b ≡ start declared.entry) }
    {
        let alloc = declared.alloc;
        let changes = open_tracks(alloc, declared.codes.len())?;
        Ok(Body {
            declared,
            times: Vec::new(alloc),
            changes,
        })
    }

    /// What stands in the text so far.
    pub fn into_recording(self) -> Recording
        requires { 0 < length self.times }
        ensures { result ≡ recorded_so_far self.entry }
    {
        let Body {
            declared,
            times,
            changes,
        } = self;
        Recording::new(declared, times, changes)
    }

    /// The first moment, at time 0, where there is none yet.
    pub fn open_moment(&mut self) -> Result<(), Memory>
        ensures is { IfOk result (λ _. self.new ≡ with_moment self.old) }
        ensures some { OnOk result (0 < length self.new.times) }
    {
        if self.times.is_empty() {
            self.times.push(0)?;
        }
        Ok(())
    }

    fn find(&self, code: &[u8]) -> Option<Found>
        ensures is { result ≡ find self.now.declared.codes code.now }
        ensures within { IfSome result (λ found. found.number < length self.now.tracks) }
    {
        self.declared.find(code)
    }

    /// A time. More than `LIMIT` count as out of memory.
    pub fn add_time(&mut self, at: usize, text: &[u8]) -> Result<(), VcdErr>
        ensures { Gives result self.new (time_on (time_of text.now) self.old at) }
    {
        let Some(time) = number_within(u64::MAX, text) else {
            return Err(VcdErr::Syntax { at });
        };
        let count = self.times.len();
        if count > 0 {
            let last = self.times[count - 1];
            if time < last {
                return Err(VcdErr::TimeBack { at });
            }
            if time == last {
                return Ok(());
            }
            if count >= LIMIT {
                return Err(VcdErr::Memory);
            }
        }
        self.times.push(time)?;
        Ok(())
    }

    /// A change of a code in the last moment.
    fn change(&mut self, number: usize, digits: &[u8]) -> Result<(), Memory>
        requires { number < length self.old.tracks }
        ensures { IfOk result (λ _. self.new ≡ changed self.old number digits.now) }
    {
        let moment = self.times.len().saturating_sub(1) as u32;
        self.changes.add(number, moment, digits)?;
        self.open_moment()
    }

    /// A digit and a code in one word: a change of the variables that are listed.
    pub fn add_scalar(&mut self, at: usize, text: &[u8]) -> Result<(), VcdErr>
        ensures { Gives result self.new (scalar_in self.old (word at text.now)) }
    {
        let code = rest_of(text);
        match self.find(code) {
            None => Err(undeclared(code, at)),
            Some(found) => {
                if found.listed {
                    self.change(found.number, front_of(text))?;
                }
                Ok(())
            }
        }
    }

    /// Digits, whose word stands at `at`, and a code that no skipped variable has.
    pub fn add_vector(
        &mut self,
        at: usize,
        digits: &[u8],
        code_at: usize,
        code: &[u8],
    ) -> Result<(), VcdErr>
        ensures { Gives result self.new (vector_in self.old at digits.now (word code_at code.now)) }
    {
        let found = match self.find(code) {
            None => return Err(undeclared(code, code_at)),
            Some(found) => found,
        };
        if found.skipped {
            return Err(VcdErr::Syntax { at });
        }
        if digits.len() > found.width as usize {
            return Err(VcdErr::Width { at });
        }
        self.change(found.number, digits)?;
        Ok(())
    }

    /// A real number, whose word stands at `at`, and a code that some skipped variable has: nothing changes.
    pub fn skip_real(&self, at: usize, code_at: usize, code: &[u8]) -> Result<(), VcdErr>
        ensures { Gives result self.now (real_in self.now at (word code_at code.now)) }
    {
        match self.find(code) {
            None => Err(undeclared(code, code_at)),
            Some(found) => {
                if found.skipped {
                    Ok(())
                } else {
                    Err(VcdErr::Syntax { at })
                }
            }
        }
    }
}

/// The fault of a code that isn't declared.
fn undeclared(code: &[u8], at: usize) -> VcdErr
    ensures { result ≡ undeclared code.now at }
{
    if is_code(code) {
        VcdErr::UnknownCode { at }
    } else {
        VcdErr::Syntax { at }
    }
}
