//! What stands at the places of a step, for readers that go from step to step.

ghost use Rattle.std.specs.Prelude.{◌≡◌, ◌+◌, ◌*◌, ◌<◌, ◌≤◌, ◌^◌, IfOk, length};
ghost use Rattle.design_circuit.specs.Waveform.{written_at};
ghost use Rattle.wave_proved.specs.Contents.{job};
ghost use Rattle.wave_proved.specs.Row.{AreAnewAt, IsWholeLater, IsWrittenAt, first_row, next_row};

use crate::wave::Wave;
use base_lists::Memory;
use design_circuit::Written;
use std::alloc::Global;
use std::marker::Model;
use wave_due::{Anew, WaveformRow};

/// The row of a wave at a step, for readers that go from step to step. Contracts see the wave and the step.
#[derive(Debug, Drop)]
pub struct WaveRow<'w, 'a> {
    wave: &'w Wave<'a>,
    row: WaveformRow<'w, 'a>,
}

impl<'w, 'a> Model for WaveRow<'w, 'a> {
    ghost use Rattle.std.specs.Prelude.{◌≡◌};
    ghost use Rattle.wave_proved.specs.Contents.{contents_of};
    ghost use Rattle.wave_proved.specs.Row.{IsRowBeside, WaveRowView};

    ghost Value = { WaveRowView };

    ghost view = { λ r. record { wave = r.wave.now; step = r.row.step } };

    ghost invariant = { λ r. IsRowBeside r.wave.now r.row };
}

impl<'w, 'a> WaveRow<'w, 'a> {
    /// The row of the first step. Takes two bytes for each net.
    pub fn first(alloc: Global, wave: &'w Wave<'a>) -> Result<WaveRow<'w, 'a>, Memory>
        ensures { IfOk result (λ row. row ≡ first_row wave.now) }
    {
        let row = WaveformRow::first(alloc, wave.waveform())?;
        Ok(WaveRow { wave, row })
    }

    /// The step.
    pub fn step(&self) -> usize
        ensures { result ≡ self.now.step }
    {
        self.row.step()
    }

    /// Goes on to the next step, all places of which are written. Costs the places that were written anew at it, and
    /// two binary searches.
    pub fn next_step(&mut self)
        requires few { self.old.step < 2 ^ 32 }
        requires whole { (self.old.step + 2) * (job self.old.wave).width ≤ length self.old.wave.written }
        ensures { self.new ≡ next_row self.old }
    {
        self.row.next_step();
    }

    /// What stands at a position of the step.
    pub fn written(&self, position: usize) -> Written
        requires { IsWrittenAt (job self.now.wave) self.now.wave.written self.now.step position }
        ensures { result ≡ written_at self.now.wave.written (self.now.step * (job self.now.wave).width + position) }
    {
        self.row.written(position)
    }
}

impl<'a> Wave<'a> {
    /// The places of a step behind the first that were written anew, in place order: each other one has what its net's
    /// place a step before has. Costs two binary searches.
    pub fn anew_at(&self, step: usize) -> &[Anew]
        requires { IsWholeLater (job self.now) self.now.written step }
        ensures { AreAnewAt (job self.now) self.now.written step result.now }
    {
        self.waveform().anew_at(step)
    }
}
