//! Where a bit is told in a report.

ghost use Rattle.std.specs.Prelude.{◌≡◌, ◌<◌, IfOk, OnOk, bytes_eq, length};
ghost use Rattle.design_circuit.specs.Settled.{last_round};
ghost use Rattle.report_bits.specs.Bits as spec;
ghost use Rattle.report_bits.specs.Finished.{AreRowsOf, HasStep};
ghost use Rattle.report_bits.specs.Lines as view;
ghost use Rattle.report_bits.specs.Told.{is_same_told, told_at};

use crate::lines::{ReportLines, WaveLines};
use crate::rows::{Rows, bring_rows, told_in};
use base_lists::Memory;
use design_cell::Value;
use design_circuit::{Mark, Stim, Written};
use recording_binding::BoundBit;
use std::alloc::Global;

/// What is told of a net at a step: the recorded value, and what the wave has.
#[derive(Clone, Copy)]
pub struct Told {
    pub net: u32,
    pub recorded: Value,
    pub written: Written,
}

/// Whether a bit is told in its moment, given what is told there. The rows come to the moment before, where that
/// decides.
pub fn is_told<'w, 'a>(
    alloc: Global,
    from: &WaveLines<'w, 'a>,
    before: &mut Rows<'w, 'a>,
    bit: BoundBit,
    told: Told,
) -> Result<bool, Memory>
    requires bit { view.IsBitIn from.now bit }
    requires before { AreRowsOf from.now.wave.now before.old }
    requires told { told ≡ told_at from.now.wave.now (view.told_place from.now bit) }
    ensures told { IfOk result (λ is. is ≡ spec.is_told from.now.wave.now from.now.lines bit) }
    ensures before { OnOk result (AreRowsOf from.now.wave.now before.new) }
{
    match from.lines {
        ReportLines::All => Ok(true),
        ReportLines::Changes => is_told_anew(alloc, from, before, bit, told),
    }
}

/// Whether a bit's moment is the first, or what is told isn't what was told a moment before.
fn is_told_anew<'w, 'a>(
    alloc: Global,
    from: &WaveLines<'w, 'a>,
    before: &mut Rows<'w, 'a>,
    bit: BoundBit,
    told: Told,
) -> Result<bool, Memory>
    requires bit { view.IsBitIn from.now bit }
    requires before { AreRowsOf from.now.wave.now before.old }
    requires told { told ≡ told_at from.now.wave.now (view.told_place from.now bit) }
    ensures told { IfOk result (λ is. is ≡ spec.is_told_anew from.now.wave.now bit) }
    ensures before { OnOk result (AreRowsOf from.now.wave.now before.new) }
{
    if bit.moment == 0 {
        return Ok(true);
    }
    let step = last_step(from, bit.moment - 1);
    bring_rows(alloc, from.wave, before, step)?;
    let other = told_in(from.wave, before, step, bit.net);
    Ok(!is_same_told(told, other))
}

/// Whether the same is told twice.
fn is_same_told(told: Told, other: Told) -> bool
    ensures { result ≡ is_same_told told other }
{
    told.recorded.letter() == other.recorded.letter() && is_same_result(told.written, other.written)
}

fn is_same_result(written: Written, other: Written) -> bool
    ensures { result ≡ bytes_eq (spec.result_of written.mark written.value) (spec.result_of other.mark other.value) }
{
    match (written.mark, other.mark) {
        (Mark::Certain, Mark::Certain) => written.value.letter() == other.value.letter(),
        (Mark::Unknown, Mark::Unknown) => true,
        (Mark::Undecided, Mark::Undecided) => true,
        _ => false,
    }
}

/// The step of a moment's last round, which a finished wave has.
pub fn last_step(from: &WaveLines<'_, '_>, moment: u32) -> u32
    requires moment { moment < view.moment_count from.now }
    ensures step { result ≡ view.step_in from.now moment }
    ensures there { HasStep from.now.wave.now result }
{
    // With it comes the fact that the history has the places of the wave.
    from.wave.recall();
    last_round(from.wave.stim(), moment)
}

fn last_round(stim: &Stim, moment: u32) -> u32
    requires { moment < length stim.now.times }
    ensures { result ≡ last_round stim.now.rounds moment }
{
    moment * stim.rounds + (stim.rounds - 1)
}
