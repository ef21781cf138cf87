//! The whole report.

ghost use Rattle.std.specs.Prelude.{◌≡◌, ◌++◌, IfOk, OnOk, count_by};
ghost use Rattle.recording_binding.specs.Binding.{FitsBinding};
ghost use Rattle.report_bits.specs.Report as spec;
ghost use Rattle.wave_proved.specs.Contents.{IsFinished};

use crate::bits::bit_lines;
use crate::head::head_lines;
use crate::lines::ReportLines;
use base_lists::{Memory, put};
use design_circuit::{Event, Forces};
use recording_binding::Binding;
use std::alloc::Global;
use wave_proved::Wave;

/// The whole report of a finished wave: its first three lines, with how many of the events force a net, then a line for
/// each recorded bit that is x or z, where it is told.
///
/// Takes the text's bytes twice, those of the name of each net that has a line, once, 44 bytes for each net, or 8 of
/// these for each bit where there are more bits, and 8 for each bit; on the way 24 more for each. Takes time linear in
/// the text, in the steps, in the nets, in the bits of one moment and in what the history and the wave write anew, and
/// with the lines of all moments in the bits of which x or z is recorded; with more than 2^20 bits, in the bits of all
/// moments.
#[tactic(auto, unfolding(crate::specs::Report::report_text))]
pub fn write_report(
    alloc: Global,
    wave: &Wave<'_>,
    bound: &Binding,
    lines: ReportLines,
    forces: &Forces,
) -> Result<Vec<u8>, Memory>
    requires finished { IsFinished wave.now }
    requires binding { FitsBinding wave.now.design bound.now }
    ensures { IfOk result (λ text. text.items ≡ spec.report_text wave.now bound.now lines forces.now) }
{
    let mut text = write_head(alloc, wave, forces)?;
    let bits = bit_lines(alloc, wave, bound, lines)?;
    put(&mut text, bits.as_slice())?;
    Ok(text)
}

/// The first three lines of the report of a finished wave, with how many of the events force a net. Takes the text's
/// bytes and three bytes for each net, and time linear in the steps, in the nets and in what the wave and its history
/// write anew.
pub fn write_head(alloc: Global, wave: &Wave<'_>, forces: &Forces) -> Result<Vec<u8>, Memory>
    requires { IsFinished wave.now }
    ensures { IfOk result (λ text. text.items ≡ spec.head_text wave.now forces.now) }
{
    head_lines(alloc, wave, count_forces(forces.as_slice()))
}

/// How many of the events force a net.
fn count_forces(events: &[Event]) -> usize
    ensures { result ≡ count_by spec.is_force events.now }
{
    events.iter().filter(|event| event.value.is_some()).count()
}
