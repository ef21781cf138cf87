//! What follows both sides of a comparison from moment to moment.

ghost use Rattle.std.specs.Prelude.{◌≡◌, ◌<◌, ◌≤◌, ◌^◌, IfOk};
ghost use Rattle.design_cell.specs.declared.value.Value.{Value as AnyValue};
ghost use Rattle.design_circuit.specs.Circuit.{job_in};
ghost use Rattle.design_circuit.specs.Handed.{shown_of};
ghost use Rattle.design_circuit.specs.History.{HasPlace, held_in};
ghost use Rattle.replay_history.specs.Follower.{IsAt, IsUpTo, ShowsAlong};
ghost use Rattle.replay_history.specs.Sides.{AreSides, job_beside};

use crate::sides::{Sides, last_step_of};
use base_lists::Memory;
use design_cell::Value;
use design_circuit::{Circuit, HistoryRow, Place, Source};
use recording_reader::Cursor;
use std::alloc::Global;

/// The rows of the history at a step and at the one before, and a cursor of the recording.
#[derive(Drop)]
pub struct Follower<'a> {
    pub row: HistoryRow<'a>,
    pub before: HistoryRow<'a>,
    pub recorded: Cursor<'a>,
}

impl<'a> Follower<'a> {
    /// At the first step. Takes 2 bytes for each net, and 8 for each variable of the recording.
    pub fn first(alloc: Global, sides: &Sides<'a>) -> Result<Follower<'a>, Memory>
        ensures { IfOk result (IsUpTo sides.now 0) }
    {
        let row = HistoryRow::first(alloc, sides.history)?;
        let before = HistoryRow::first(alloc, sides.history)?;
        let recorded = Cursor::new(alloc, sides.recording)?;
        Ok(Follower {
            row,
            before,
            recorded,
        })
    }

    /// Goes on to the last step of a moment. Costs what is written on the way.
    pub fn bring(&mut self, sides: &Sides<'_>, moment: u32)
        requires sides { AreSides sides.now }
        requires moment { moment < (job_beside sides.now).moments }
        requires before { IsUpTo sides.now moment self.old }
        ensures { IsAt sides.now moment self.new }
    {
        let step = last_step_of(sides, moment) as usize;
        bring_on(&mut self.before, step.saturating_sub(1));
        bring_on(&mut self.row, step);
    }

    /// What a place shows: by a row that stands at its step, else by the history.
    pub fn shown(&self, place: Place) -> Value
        requires place { HasPlace self.now.row.history place }
        requires same { self.now.before.history ≡ self.now.row.history }
        ensures { result ≡ (held_in self.now.row.history place).shown }
    {
        let step = place.step as usize;
        if step == self.row.step() {
            return self.row.shown(place.net);
        }
        if step == self.before.step() {
            return self.before.shown(place.net);
        }
        self.row.history().shown(place)
    }
}

/// Brings a row on to a step, where it stands before it.
fn bring_on(row: &mut HistoryRow<'_>, step: usize)
    requires { step < 2 ^ 32 }
    ensures history { row.new.history ≡ row.old.history }
    ensures step { row.old.step ≤ step → row.new.step ≡ step }
{
    'steps: while row.step() < step {
        row.next_step();
    }
}

/// What the history shows at the places of a circuit.
#[derive(Clone, Copy)]
pub struct ShownAlong<'a> {
    pub circuit: Circuit<'a>,
    pub follower: &'a Follower<'a>,
}

impl<'a> Source for ShownAlong<'a> {
    ghost reads = { λ s place. shown_of (job_in s.circuit) s.follower.now.row.history place };

    ghost has = { λ s place. ShowsAlong s.circuit s.follower.now place };

    fn value(&self, place: usize) -> Value {
        self.follower.shown(self.circuit.place_of(place))
    }
}
