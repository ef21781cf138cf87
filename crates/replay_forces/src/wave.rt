//! The forces under which the replay shows what a wave shows.

ghost use Rattle.std.specs.Prelude.{◌≡◌, ◌+◌, ◌*◌, ◌<◌, ◌≤◌, ◌^◌, IfOk, IfSome, length};
ghost use Rattle.design_circuit.specs.Waveform.{written_at};
ghost use Rattle.replay_forces.specs.ForcesOf.{AreForcesOf};
ghost use Rattle.replay_forces.specs.Waves.{values_of};
ghost use Rattle.wave_proved.specs.Contents.{IsFinished, job};

use crate::steps::forces_of_values;
use crate::values::Moving;
use base_lists::Memory;
use design_cell::Value;
use design_circuit::{Forces, Source, Written, width_of};
use std::alloc::Global;
use wave_proved::{Anew, Wave, WaveRow};

/// The forces under which the replay shows what a finished wave shows, and no more.
///
/// Takes the events, and some 35 bytes for each net and each pin. In a later step only those places are looked at that
/// the wave wrote anew, and only those are computed that have another value than one step before, or that read one that
/// has.
pub fn forces_of(alloc: Global, wave: &Wave<'_>) -> Result<Forces, Memory>
    requires { IsFinished wave.now }
    ensures { IfOk result (λ forces. AreForcesOf (job wave.now) (values_of wave.now) forces) }
{
    let mut values = Values::first(alloc, wave)?;
    forces_of_values(alloc, &wave.circuit(), &mut values)
}

/// The row of a wave at a step, with the number of the step's first place. Contracts see the wave and the step.
#[derive(Drop)]
struct PlaceRow<'w, 'a> {
    width: usize,
    first: usize,
    row: WaveRow<'w, 'a>,
    ghost wide: { width ≡ (job row.wave).width },
    ghost begins: { first ≡ row.step * (job row.wave).width },
}

impl<'w, 'a> PlaceRow<'w, 'a> {
    /// That of the first step. Takes a byte for each net.
    fn first(alloc: Global, wave: &'w Wave<'a>) -> Result<PlaceRow<'w, 'a>, Memory>
        ensures { IfOk result (λ at. at.row.wave ≡ wave.now) }
    {
        let width = width_of(&wave.circuit());
        let row = WaveRow::first(alloc, wave)?;
        Ok(PlaceRow {
            width,
            first: 0,
            row,
        })
    }

    /// Goes on to a step, where it stands before it.
    fn go_to(&mut self, step: usize)
        requires small { step < 2 ^ 32 }
        requires whole { (step + 1) * (job self.old.row.wave).width ≤ length self.old.row.wave.written }
        requires few { length self.old.row.wave.written < 2 ^ 64 }
        ensures { self.new.row.wave ≡ self.old.row.wave }
    {
        'steps: while self.row.step() < step {
            self.row.next_step();
            self.first += self.width;
        }
    }

    /// What stands at the place of a number, where it is one of its step.
    fn written(&self, place: usize) -> Option<Written>
        requires { place < length self.now.row.wave.written }
        ensures { IfSome result (λ written. written ≡ written_at self.now.row.wave.written place) }
    {
        if place < self.first || place - self.first >= self.width {
            return None;
        }
        Some(self.row.written(place - self.first))
    }
}

/// What a wave shows at the places that are written, with the rows of a step and of the two before it.
#[derive(Drop)]
struct Values<'w, 'a> {
    wave: &'w Wave<'a>,
    here: PlaceRow<'w, 'a>,
    before: PlaceRow<'w, 'a>,
    earlier: PlaceRow<'w, 'a>,
    ghost at_here: { here.row.wave ≡ wave.now },
    ghost at_before: { before.row.wave ≡ wave.now },
    ghost at_earlier: { earlier.row.wave ≡ wave.now },
}

impl<'w, 'a> Values<'w, 'a> {
    /// With the rows of the first step. Takes 3 bytes for each net.
    fn first(alloc: Global, wave: &'w Wave<'a>) -> Result<Values<'w, 'a>, Memory>
        ensures { IfOk result (λ values. values.wave.now ≡ wave.now) }
    {
        let here = PlaceRow::first(alloc, wave)?;
        let before = PlaceRow::first(alloc, wave)?;
        let earlier = PlaceRow::first(alloc, wave)?;
        Ok(Values {
            wave,
            here,
            before,
            earlier,
        })
    }
}

impl<'w, 'a> Source for Values<'w, 'a> {
    ghost use Rattle.replay_forces.specs.Waves.{values_of as shown};

    ghost reads = { λ s place. shown s.wave.now place };

    ghost has = { λ s place. place < length s.wave.now.written };

    fn value(&self, place: usize) -> Value {
        if let Some(written) = self.here.written(place) {
            return written.value;
        }
        if let Some(written) = self.before.written(place) {
            return written.value;
        }
        if let Some(written) = self.earlier.written(place) {
            return written.value;
        }
        self.wave.written(place).value
    }
}

impl<'w, 'a> Moving for Values<'w, 'a> {
    ghost use Rattle.wave_proved.specs.Contents.{job as job_there};

    ghost job = { λ s. job_there s.wave.now };

    fn moves_at(&self, step: usize) -> &[Anew] {
        self.wave.anew_at(step)
    }

    fn go_to(&mut self, step: usize) {
        // With it comes the fact that the places are few.
        self.wave.recall();
        self.here.go_to(step);
        self.before.go_to(step.saturating_sub(1));
        self.earlier.go_to(step.saturating_sub(2));
    }
}
