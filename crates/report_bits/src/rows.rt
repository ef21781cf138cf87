//! The rows of a wave and of its history at a step.

ghost use Rattle.std.specs.Prelude.{◌≡◌, ◌+◌, ◌*◌, ◌<◌, ◌≤◌, IfOk, OnOk, length};
ghost use Rattle.design_circuit.specs.History.{net_place};
ghost use Rattle.report_bits.specs.Finished.{AreRowsAt, AreRowsOf, HasStep};
ghost use Rattle.report_bits.specs.Told.{told_at};

use crate::row::bring;
use crate::told::Told;
use base_lists::Memory;
use design_circuit::HistoryRow;
use std::alloc::Global;
use wave_proved::{Wave, WaveRow};

/// What a wave and its history have at a step.
#[derive(Debug, Drop)]
pub struct Rows<'w, 'a> {
    pub replayed: HistoryRow<'a>,
    pub wave: WaveRow<'w, 'a>,
}

/// Those of the first step. Takes two bytes for each net.
pub fn first_rows<'w, 'a>(alloc: Global, wave: &'w Wave<'a>) -> Result<Rows<'w, 'a>, Memory>
    ensures { IfOk result (AreRowsOf wave.now) }
{
    let replayed = HistoryRow::first(alloc, wave.replayed())?;
    let row = WaveRow::first(alloc, wave)?;
    Ok(Rows {
        replayed,
        wave: row,
    })
}

/// Brings them to a step: on from where they stand, or from the first step where they stand past it. Costs the places
/// that were written anew on the way, and two bytes for each net where they begin anew.
pub fn bring_rows<'w, 'a>(
    alloc: Global,
    wave: &'w Wave<'a>,
    rows: &mut Rows<'w, 'a>,
    step: u32,
) -> Result<(), Memory>
    requires whole { (step + 1) * length wave.now.design.nets ≤ length wave.now.written }
    requires rows { AreRowsOf wave.now rows.old }
    ensures { OnOk result (AreRowsAt wave.now step rows.new) }
{
    bring(alloc, &mut rows.replayed, step)?;
    bring_wave(alloc, wave, &mut rows.wave, step)
}

/// Brings the row of a wave to a step.
fn bring_wave<'w, 'a>(
    alloc: Global,
    wave: &'w Wave<'a>,
    row: &mut WaveRow<'w, 'a>,
    step: u32,
) -> Result<(), Memory>
    requires whole { (step + 1) * length wave.now.design.nets ≤ length wave.now.written }
    requires wave { row.old.wave ≡ wave.now }
    ensures wave { OnOk result (row.new.wave ≡ wave.now) }
    ensures step { OnOk result (row.new.step ≡ step) }
{
    if row.step() > step as usize {
        *row = WaveRow::first(alloc, wave)?;
    }
    'steps: while row.step() < step as usize {
        row.next_step();
    }
    Ok(())
}

/// What is told of a net at their step.
pub fn told_in(wave: &Wave<'_>, rows: &Rows<'_, '_>, step: u32, net: u32) -> Told
    requires there { HasStep wave.now step }
    requires net { net < length wave.now.design.nets }
    requires rows { AreRowsAt wave.now step rows.now }
    ensures { result ≡ told_at wave.now (net_place step net) }
{
    let position = wave.circuit().order.position(net);
    Told {
        net,
        recorded: rows.replayed.shown(net),
        written: rows.wave.written(position as usize),
    }
}
