//! The lines of the recorded bits that are x or z.

ghost use Rattle.std.specs.Prelude.{◌≡◌, ◌<◌, ◌++◌, [], true, OnOk, IfOk, length};
ghost use Rattle.design_cell.specs.Value.{is_unknown};
ghost use Rattle.recording_binding.specs.Binding.{FitsBinding};
ghost use Rattle.wave_proved.specs.Contents.{IsFinished};
ghost use Rattle.report_bits.specs.Bits as spec;
ghost use Rattle.report_bits.specs.Finished.{IsWriterOf};
ghost use Rattle.report_bits.specs.Lines as view;
ghost use Rattle.report_bits.specs.Marked.{is_unknown_at};
ghost use Rattle.report_bits.specs.Told.{told_result, told_text};

use crate::lines::{ReportLines, WaveLines};
use crate::marked::put_moments;
use crate::names::Names;
use crate::nets::BitNets;
use crate::row::bring;
use crate::rows::{Rows, bring_rows, first_rows, told_in};
use crate::told::{Told, is_told, last_step};
use base_lists::{Memory, put, put_number};
use design_circuit::Mark;
use recording_binding::{Binding, BoundBit, BoundBits};
use std::alloc::Global;
use wave_proved::Wave;

/// The lines that are put so far, and what they are made from: what stands at the moment under way and at the one
/// before, and the names of nets.
#[derive(Drop)]
pub struct BitWriter<'w, 'a> {
    pub text: Vec<u8>,
    pub here: Rows<'w, 'a>,
    pub before: Rows<'w, 'a>,
    pub names: Names<'a>,
}

/// The lines of a report, moment by moment: one for each bit of a bound variable whose recorded value is x or z, where
/// it is told, with what the wave has at the moment's last round. The recorded value is what the history shows there.
///
/// Takes the text's bytes, those of the name of each net that has a line, once, 44 bytes for each net, or 8 of these
/// for each bit where there are more bits, and 8 for each bit; on the way 24 more for each. Takes time linear in the
/// text, in the steps, in the bits of one moment and in what the history and the wave write anew, and with the lines of
/// all moments in the bits of which x or z is recorded; with more than 2^20 bits, in the bits of all moments.
pub fn bit_lines(
    alloc: Global,
    wave: &Wave<'_>,
    bound: &Binding,
    lines: ReportLines,
) -> Result<Vec<u8>, Memory>
    requires finished { IsFinished wave.now }
    requires binding { FitsBinding wave.now.design bound.now }
    ensures { IfOk result (λ text. text.items ≡ spec.bit_lines wave.now bound.now lines) }
{
    let mut writer = new_writer(alloc, wave)?;
    put_bits(alloc, &mut writer, &WaveLines { wave, lines }, bound)?;
    Ok(writer.text)
}

/// No line yet, and what the lines are made from.
fn new_writer<'w, 'a>(alloc: Global, wave: &'w Wave<'a>) -> Result<BitWriter<'w, 'a>, Memory>
    ensures wave { IfOk result (IsWriterOf wave.now) }
    ensures none { IfOk result (λ writer. writer.text.items ≡ []) }
{
    let here = first_rows(alloc, wave)?;
    let before = first_rows(alloc, wave)?;
    let names = Names::of(alloc, wave.design())?;
    Ok(BitWriter {
        text: Vec::new(alloc),
        here,
        before,
        names,
    })
}

/// The lines: by what is written in each moment, or by all bits of each where there are too many.
fn put_bits<'w, 'a>(
    alloc: Global,
    writer: &mut BitWriter<'w, 'a>,
    from: &WaveLines<'w, 'a>,
    bound: &Binding,
) -> Result<(), Memory>
    requires binding { FitsBinding from.now.wave.now.design bound.now }
    requires writer { IsWriterOf from.now.wave.now writer.old }
    ensures { OnOk result (writer.new.text.items ≡ writer.old.text.items ++ view.lines_of_bits from.now bound.now) }
{
    // With it comes the fact that there are few nets.
    from.wave.recall();
    let found = BitNets::of(alloc, from.wave.design(), bound)?;
    match found {
        Some(bits) => put_moments(alloc, writer, from, &bits),
        None => put_all(alloc, writer, from, bound),
    }
}

/// The lines of all moments, each bit of which is looked at.
#[tactic(auto, unfolding(crate::specs::Bits::bit_lines))]
fn put_all<'w, 'a>(
    alloc: Global,
    writer: &mut BitWriter<'w, 'a>,
    from: &WaveLines<'w, 'a>,
    bound: &Binding,
) -> Result<(), Memory>
    requires binding { FitsBinding from.now.wave.now.design bound.now }
    requires writer { IsWriterOf from.now.wave.now writer.old }
    ensures { OnOk result (writer.new.text.items ≡ writer.old.text.items ++ view.lines_of_bits from.now bound.now) }
{
    let mut bits = BoundBits::new(from.wave.stim(), bound.bound.as_slice());
    'bits: while let Some(bit) = bits.next() {
        put_bit(alloc, writer, from, bit)?;
    }
    Ok(())
}

/// The line of a bit, where x or z is recorded and it is told. Gives whether x or z is.
pub fn put_bit<'w, 'a>(
    alloc: Global,
    writer: &mut BitWriter<'w, 'a>,
    from: &WaveLines<'w, 'a>,
    bit: BoundBit,
) -> Result<bool, Memory>
    requires bit { view.IsBitIn from.now bit }
    requires writer { IsWriterOf from.now.wave.now writer.old }
    ensures unknown { IfOk result
        (λ unknown. unknown ≡ is_unknown_at from.now.wave.now (view.step_in from.now bit.moment) bit.net) }
    ensures text { OnOk result (writer.new.text.items ≡ writer.old.text.items ++ view.line_of_bit from.now bit) }
    ensures writer { OnOk result (IsWriterOf from.now.wave.now writer.new) }
{
    let step = last_step(from, bit.moment);
    bring(alloc, &mut writer.here.replayed, step)?;
    if writer.here.replayed.shown(bit.net).is_known() {
        return Ok(false);
    }
    put_unknown(alloc, writer, from, bit)?;
    Ok(true)
}

/// The line of a bit of which x or z is recorded, where it is told.
fn put_unknown<'w, 'a>(
    alloc: Global,
    writer: &mut BitWriter<'w, 'a>,
    from: &WaveLines<'w, 'a>,
    bit: BoundBit,
) -> Result<(), Memory>
    requires bit { view.IsBitIn from.now bit }
    requires unknown { is_unknown (spec.recorded_in from.now.wave.now (view.told_place from.now bit)) ≡ true }
    requires writer { IsWriterOf from.now.wave.now writer.old }
    ensures text { OnOk result (writer.new.text.items ≡ writer.old.text.items ++ view.line_of_bit from.now bit) }
    ensures writer { OnOk result (IsWriterOf from.now.wave.now writer.new) }
{
    let step = last_step(from, bit.moment);
    bring_rows(alloc, from.wave, &mut writer.here, step)?;
    let told = told_in(from.wave, &writer.here, step, bit.net);
    if is_told(alloc, from, &mut writer.before, bit, told)? {
        let time = from.wave.stim().times.as_slice()[bit.moment as usize];
        put_told(alloc, &mut writer.text, &mut writer.names, time, told)?;
    }
    Ok(())
}

// line = "#" time " " name " " ( "x" | "z" ) " " result
fn put_told(
    alloc: Global,
    text: &mut Vec<u8>,
    names: &mut Names<'_>,
    time: u64,
    told: Told,
) -> Result<(), Memory>
    requires { told.net < length names.old.nets }
    ensures text { OnOk result (text.new.items ≡ text.old.items ++ told_text names.old time told) }
    ensures names { names.new ≡ names.old }
{
    put(text, b"#")?;
    put_number(text, time)?;
    put(text, b" ")?;
    names.put_name(alloc, text, told.net)?;
    put(text, b" ")?;
    put(text, &[told.recorded.letter()])?;
    put(text, b" ")?;
    put_result(text, told)?;
    put(text, b"\n")
}

// result = "0" | "1" | "unknown" | "undecided"
fn put_result(text: &mut Vec<u8>, told: Told) -> Result<(), Memory>
    ensures { OnOk result (text.new.items ≡ text.old.items ++ told_result told) }
{
    match told.written.mark {
        Mark::Certain => put(text, &[told.written.value.letter()]),
        Mark::Unknown => put(text, b"unknown"),
        Mark::Undecided => put(text, b"undecided"),
    }
}
