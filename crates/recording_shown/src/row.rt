//! What a finished wave shows, step by step.

ghost use Rattle.std.specs.Prelude.{◌≡◌, ◌*◌, IfOk};
ghost use Rattle.design_circuit.specs.Row.{first_row};
ghost use Rattle.recording_shown.specs.History.{shown_history};
ghost use Rattle.wave_proved.specs.Contents.{IsFinished, job};

use crate::marks::mark_anew;
use base_lists::Memory;
use design_cell::Value;
use recording_writer::{BitReaders, Shown};
use replay_due::Due;
use std::alloc::Global;
use std::marker::Model;
use wave_proved::{Wave, WaveRow};

/// What each net shows at a step of a finished wave. Contracts see the history that shows the wave, and the step.
#[derive(Drop)]
pub struct ShownWave<'w, 'a> {
    wave: &'w Wave<'a>,
    /// The wave's row at the step, as long as it is one of the wave's.
    row: WaveRow<'w, 'a>,
    step: usize,
}

impl<'w, 'a> Model for ShownWave<'w, 'a> {
    ghost use Rattle.design_circuit.specs.Row.{RowView};
    ghost use Rattle.recording_shown.specs.History.{StandsIn, shown_history};

    ghost Value = { RowView };

    ghost view = { λ r. record { history = shown_history r.wave.now; step = r.step } };

    ghost invariant = { λ r. StandsIn r.wave.now r.step r.row };
}

impl<'w, 'a> ShownWave<'w, 'a> {
    /// What the nets show at the first step. Takes two bytes for each net.
    pub fn first(alloc: Global, wave: &'w Wave<'a>) -> Result<ShownWave<'w, 'a>, Memory>
        requires { IsFinished wave.now }
        ensures { IfOk result (λ row. row ≡ first_row (shown_history wave.now)) }
    {
        let row = WaveRow::first(alloc, wave)?;
        Ok(ShownWave { wave, row, step: 0 })
    }
}

impl<'w, 'a> Shown for ShownWave<'w, 'a> {
    ghost view = { λ r. r };

    fn step(&self) -> usize {
        self.step
    }

    fn next_step(&mut self) {
        if self.step + 1 < steps_of(self.wave) {
            self.row.next_step();
        }
        self.step += 1;
    }

    fn shown(&self, net: u32) -> Value {
        let position = self.wave.circuit().order.position(net);
        self.row.written(position as usize).value
    }

    fn mark_written(&self, readers: &BitReaders, step: u32, due: &mut Due) -> bool {
        mark_anew(self.wave, readers, step as usize, due);
        true
    }
}

/// How many steps a wave has.
fn steps_of(wave: &Wave<'_>) -> usize
    ensures { result ≡ (job wave.now).moments * (job wave.now).rounds }
{
    let circuit = wave.circuit();
    circuit.stim.times.as_slice().len() * circuit.stim.rounds as usize
}
