//! What stands at the places of a step, for readers that go from step to step.

ghost use Rattle.std.specs.Prelude.{◌≡◌, ◌+◌, ◌*◌, ◌<◌, ◌≤◌, ◌^◌, IfOk, length};
ghost use Rattle.design_circuit.specs.Waveform.{written_at};
ghost use Rattle.wave_bytes.specs.Changed.{IsRowAt, IsWrittenAt};
ghost use Rattle.wave_bytes.specs.View.{job};

use crate::waveform::Waveform;
use base_lists::Memory;
use design_cell::Value;
use design_circuit::{Mark, Written, width_of};
use std::alloc::Global;
use std::marker::Model;

/// The places of a step of a waveform. Contracts see the waveform and the step.
#[derive(Debug, Drop)]
pub struct WaveformRow<'w, 'a> {
    waveform: &'w Waveform<'a>,
    step: usize,
    written: Vec<Written>,
}

impl<'w, 'a> Model for WaveformRow<'w, 'a> {
    ghost use Rattle.wave_bytes.specs.Changed.{IsRowAt, RowOf};

    ghost Value = { RowOf };

    ghost view = { λ r. record { waveform = r.waveform.now; step = r.step } };

    ghost invariant = { λ r. IsRowAt r.waveform.now r.step r.written.items };
}

impl<'w, 'a> WaveformRow<'w, 'a> {
    /// The row of the first step. Takes two bytes for each net.
    pub fn first(alloc: Global, waveform: &'w Waveform<'a>) -> Result<WaveformRow<'w, 'a>, Memory>
        ensures { IfOk result (λ row. row ≡ record { waveform = waveform.now; step = 0 }) }
    {
        let written = first_row(alloc, waveform)?;
        Ok(WaveformRow {
            waveform,
            step: 0,
            written,
        })
    }

    /// The step.
    pub fn step(&self) -> usize
        ensures { result ≡ self.now.step }
    {
        self.step
    }

    /// Goes on to the next step, all places of which are written. Costs the places that were written anew at it, and
    /// two binary searches.
    pub fn next_step(&mut self)
        requires few { self.old.step < 2 ^ 32 }
        requires whole { (self.old.step + 2) * (job self.old.waveform).width ≤ length self.old.waveform.written }
        ensures waveform { self.new.waveform ≡ self.old.waveform }
        ensures step { self.new.step ≡ self.old.step + 1 }
    {
        bring_on(self.waveform, self.step, self.written.as_mut_slice());
        self.step += 1;
    }

    /// What stands at a position of the step.
    pub fn written(&self, position: usize) -> Written
        requires { IsWrittenAt (job self.now.waveform) self.now.waveform.written self.now.step position }
        ensures { result ≡ written_at self.now.waveform.written (self.now.step * (job self.now.waveform).width + position) }
    {
        self.written[position]
    }
}

/// What stands at the places of the first step, as far as they are written.
fn first_row(alloc: Global, waveform: &Waveform<'_>) -> Result<Vec<Written>, Memory>
    ensures { IfOk result (λ row. IsRowAt waveform.now 0 row.items) }
{
    let width = width_of(&waveform.circuit());
    let mut row = Vec::with_capacity(alloc, width)?;
    'positions: for position in 0..width {
        row.push(written_or_none(waveform, position))?;
    }
    Ok(row)
}

/// What stands at the place of a number, if it is written.
fn written_or_none(waveform: &Waveform<'_>, number: usize) -> Written
    ensures { number < length waveform.now.written → result ≡ written_at waveform.now.written number }
{
    if number < waveform.count() {
        waveform.written(number)
    } else {
        Written {
            value: Value::X,
            mark: Mark::Unknown,
        }
    }
}

/// Brings the row of a step on to the next one.
fn bring_on(waveform: &Waveform<'_>, step: usize, row: &mut [Written])
    requires few { step < 2 ^ 32 }
    requires row { IsRowAt waveform.now step row.old }
    requires whole { (step + 2) * (job waveform.now).width ≤ length waveform.now.written }
    ensures { IsRowAt waveform.now (step + 1) row.new }
{
    // With it comes the fact that numbers of places are small.
    let _count = waveform.count();
    let places = waveform.anew_at(step + 1);
    let start = (step + 1) * row.len();
    'places: for k in 0..places.len() {
        row[places[k].number() - start] = places[k].written();
    }
}
