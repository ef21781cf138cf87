//! Two rows that go on from moment to moment.

ghost use Rattle.std.specs.Prelude.{◌≡◌, ◌+◌, ◌<◌, ◌≤◌, ◌^◌};
ghost use Rattle.design_circuit.specs.Settled as settled;
ghost use Rattle.recording_writer.specs.Rows as spec;

use crate::shown::Shown;
use std::marker::Model;

/// The row of what is shown at the last step of a moment, and that at the last step of the moment before. Contracts see
/// the history that they show, how many rounds each moment has, and the moment.
#[derive(Drop)]
pub struct MomentRows<R: Shown> {
    rounds: u32,
    moment: u32,
    row: R,
    before: R,
}

impl<R: Shown> Model for MomentRows<R> {
    ghost use Rattle.recording_writer.specs.Rows.{MomentView, StandAt, moment_view};

    ghost Value = { MomentView };

    ghost view = { λ r. moment_view (R.view r.row).history r.rounds r.moment };

    ghost invariant = { λ r. StandAt (moment_view (R.view r.row).history r.rounds r.moment) (R.view r.row)
        (R.view r.before) };
}

impl<R: Shown> MomentRows<R> {
    /// The rows of the first moment, both at its last step, from two at the first step of one history.
    pub fn first(row: R, before: R, rounds: u32) -> MomentRows<R>
        requires some { 0 < rounds }
        requires first { (R.view row).step ≡ 0 }
        requires one { R.view before ≡ R.view row }
        ensures { result ≡ spec.moment_view (R.view row).history rounds 0 }
    {
        let mut row = row;
        let mut before = before;
        let step = rounds as usize - 1;
        bring_on(&mut row, step);
        bring_on(&mut before, step);
        MomentRows {
            rounds,
            moment: 0,
            row,
            before,
        }
    }

    /// Goes on to the next moment. Costs what is written in it and in the moment before.
    pub fn next_moment(&mut self)
        requires { settled.last_round self.old.rounds (self.old.moment + 1) < 2 ^ 32 }
        ensures { self.new ≡ spec.moment_view self.old.history self.old.rounds (self.old.moment + 1) }
    {
        let step = self.row.step();
        bring_on(&mut self.before, step);
        bring_on(&mut self.row, step + self.rounds as usize);
        self.moment += 1;
    }

    /// The moment.
    pub fn moment(&self) -> u32
        ensures { result ≡ self.now.moment }
    {
        self.moment
    }

    /// The row of the moment's last step.
    pub fn row(&self) -> &R
        ensures { R.view result.now ≡ spec.row_at_step self.now.history (spec.moment_end self.now) }
    {
        &self.row
    }

    /// That of the moment before; at the first moment, of its own.
    pub fn before(&self) -> &R
        ensures { R.view result.now ≡ spec.row_at_step self.now.history (spec.end_before self.now) }
    {
        &self.before
    }
}

/// Brings a row on to a step. Costs what is written on the way.
fn bring_on<R: Shown>(row: &mut R, step: usize)
    requires small { step < 2 ^ 32 }
    requires before { (R.view row.old).step ≤ step }
    ensures { R.view row.new ≡ spec.row_at_step (R.view row.old).history step }
{
    'steps: while row.step() < step {
        row.next_step();
    }
}
