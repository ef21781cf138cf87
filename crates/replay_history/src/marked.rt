//! What is due in a moment: what may be otherwise in it than in the moment before.

ghost use Rattle.std.specs.Prelude.{◌≡◌, ℕ, ◌-◌, ◌*◌, ◌<◌, ◌≤◌, ◌^◌, IfOk, None, Some, true, length, slice_index_or};
ghost use Rattle.replay_fans.specs.Marks.{OnlyMore};
ghost use Rattle.base_ledger.specs.Change.{AreInWidth};
ghost use Rattle.replay_history.specs.Follower.{IsUpTo};
ghost use Rattle.replay_history.specs.Sides.{AreSides, job_beside};
ghost use Rattle.replay_history.specs.Watched.{AreAtRest, AreDueTo, AreRecordedAsBefore, FitsWatchers, IsNumberDue};
ghost use Rattle.replay_history.specs.Watched.{ShowSame, ShowSameIn};
ghost use Rattle.replay_due.specs.Due.{HasRoom, HasRoomFor};
ghost use Rattle.replay_due.specs.Readers.{IsReaderTable};

use crate::follower::Follower;
use crate::sides::{Sides, last_step_of};
use crate::watchers::Watchers;
use base_lists::Memory;
use design_circuit::{Change, width_of};
use replay_due::{Due, Readers};
use replay_fans::mark_all;
use std::alloc::Global;

/// What a comparison carries from moment to moment: where it stands, the positions of the registers that are due, and
/// the numbers of the bound variables.
#[derive(Drop)]
pub struct Marked<'a> {
    pub follower: Follower<'a>,
    pub registers: Due,
    pub variables: Due,
}

impl<'a> Marked<'a> {
    /// At the first step, with none of the nets due and none of so many numbers. Takes 2 bytes and a bit for each net,
    /// 8 bytes for each variable of the recording, and a bit for each number.
    pub fn none(alloc: Global, sides: &Sides<'a>, room: usize) -> Result<Marked<'a>, Memory>
        requires sides { AreSides sides.now }
        requires room { room ≤ 2 ^ 20 }
        ensures follower { IfOk result (λ marked. IsUpTo sides.now 0 marked.follower) }
        ensures registers { IfOk result (λ marked. HasRoomFor marked.registers (job_beside sides.now).width) }
        ensures variables { IfOk result (λ marked. HasRoomFor marked.variables room) }
    {
        let follower = Follower::first(alloc, sides)?;
        let registers = Due::none(alloc, width_of(&sides.circuit))?;
        let variables = Due::none(alloc, room)?;
        Ok(Marked {
            follower,
            registers,
            variables,
        })
    }

    /// What may be otherwise in a moment than in the one before is due, and nothing else. Costs what is written and
    /// recorded in it. False where the history doesn't tell what is written.
    pub fn mark(&mut self, sides: &Sides<'_>, watchers: &Watchers<'_>, moment: u32) -> bool
        requires sides { AreSides sides.now }
        requires watchers { FitsWatchers sides.now watchers.now }
        requires later { 0 < moment }
        requires moment { moment < (job_beside sides.now).moments }
        requires registers { HasRoomFor self.old.registers (job_beside sides.now).width }
        requires variables { HasRoomFor self.old.variables watchers.now.room }
        ensures follower { self.new.follower ≡ self.old.follower }
        ensures registers { length self.new.registers ≡ length self.old.registers }
        ensures variables { length self.new.variables ≡ length self.old.variables }
        ensures rest { result ≡ true → AreAtRest sides.now moment self.new.registers }
        ensures shown { result ≡ true → ShowSameIn sides.now watchers.now.variables moment self.new.variables }
        ensures recorded { result ≡ true →
            AreRecordedAsBefore sides.now.recording.now watchers.now.numbers.items moment self.new.variables }
    {
        self.registers.clear();
        self.variables.clear();
        let nets = width_of(&sides.circuit);
        let last = last_step_of(sides, moment);
        if !mark_written(sides, &watchers.registers, nets, last, &mut self.registers) {
            return false;
        }
        if !mark_shown(sides, watchers, moment, &mut self.variables) {
            return false;
        }
        mark_recorded(sides, watchers, moment, &mut self.variables);
        true
    }
}

/// The bound variables become due that have a bit whose net is written in a moment. False where the history doesn't
/// tell.
fn mark_shown(sides: &Sides<'_>, watchers: &Watchers<'_>, moment: u32, due: &mut Due) -> bool
    requires sides { AreSides sides.now }
    requires table { IsReaderTable watchers.now.room watchers.now.variables }
    requires nets { (job_beside sides.now).width ≤ watchers.now.room }
    requires later { 0 < moment }
    requires moment { moment < (job_beside sides.now).moments }
    requires room { HasRoomFor due.old watchers.now.room }
    ensures long { length due.new ≡ length due.old }
    ensures same { result ≡ true → ShowSameIn sides.now watchers.now.variables moment due.new }
{
    let rounds = sides.circuit.stim.rounds;
    let first = last_step_of(sides, moment) - (rounds - 1);
    'rounds: for round in 0..rounds {
        let step = first + round;
        if !mark_written(sides, &watchers.variables, watchers.room, step, due) {
            return false;
        }
    }
    true
}

/// The readers of each net that is written at a step become due, with nets and readers below a number. False where the
/// history doesn't tell.
fn mark_written(sides: &Sides<'_>, readers: &Readers, room: usize, step: u32, due: &mut Due) -> bool
    requires sides { AreSides sides.now }
    requires table { IsReaderTable room readers.now }
    requires nets { (job_beside sides.now).width ≤ room }
    requires later { 0 < step }
    requires step { step < (job_beside sides.now).moments * (job_beside sides.now).rounds }
    requires room { HasRoomFor due.old room }
    ensures long { length due.new ≡ length due.old }
    ensures more { OnlyMore due.old due.new }
    ensures same { result ≡ true → ShowSame sides.now readers.now (step - 1) step due.new }
{
    match sides.history.written(step as usize) {
        Some(changes) => {
            mark_changes(readers, room, changes, due);
            true
        }
        None => false,
    }
}

/// The readers of the net of each change become due, with nets and readers below a number.
pub fn mark_changes(readers: &Readers, room: usize, changes: &[Change], due: &mut Due)
    requires table { IsReaderTable room readers.now }
    requires within { AreInWidth room changes.now }
    requires room { HasRoomFor due.old room }
    ensures long { length due.new ≡ length due.old }
    ensures more { OnlyMore due.old due.new }
    ensures marked { AreDueTo readers.now changes.now (length changes.now) due.new }
{
    'changes: for change in changes {
        mark_all(readers, change.position(), room, due);
    }
}

/// The bound variables become due that the recording has a change of in a moment.
fn mark_recorded(sides: &Sides<'_>, watchers: &Watchers<'_>, moment: u32, due: &mut Due)
    requires sides { AreSides sides.now }
    requires watchers { FitsWatchers sides.now watchers.now }
    requires later { 0 < moment }
    requires moment { moment < (job_beside sides.now).moments }
    requires room { HasRoomFor due.old watchers.now.room }
    ensures long { length due.new ≡ length due.old }
    ensures more { OnlyMore due.old due.new }
    ensures recorded { AreRecordedAsBefore sides.now.recording.now watchers.now.numbers.items moment due.new }
{
    let changed = watchers.changes.changed(moment);
    'variables: for variable in changed {
        mark_variable(watchers.numbers.as_slice(), *variable, due);
    }
}

/// The number of a variable becomes due, where it has one.
fn mark_variable(numbers: &[Option<u32>], variable: u32, due: &mut Due)
    requires known { variable < length numbers.now }
    requires room { (number : ℕ) → slice_index_or numbers.now variable None ≡ Some number → HasRoom due.old number }
    ensures long { length due.new ≡ length due.old }
    ensures more { OnlyMore due.old due.new }
    ensures number { IsNumberDue numbers.now variable due.new }
{
    if let Some(number) = numbers[variable as usize] {
        due.insert(number as usize);
    }
}
