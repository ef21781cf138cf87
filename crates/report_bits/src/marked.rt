//! The lines moment by moment, each by the bits that may have one: those of which x or z was recorded in the moment
//! before, and those whose net the history writes in the moment. With the lines of changes: those whose net the history
//! or the wave writes in the moment.

ghost use Rattle.std.specs.Prelude.{◌≡◌, ◌+◌, ◌-◌, ◌*◌, ◌<◌, ◌++◌, true, All, OnOk, length};
ghost use Rattle.replay_due.specs.Due.{HasRoomFor};
ghost use Rattle.report_bits.specs.Finished.{IsWriterOf};
ghost use Rattle.report_bits.specs.Lines as view;
ghost use Rattle.report_bits.specs.Marked as spec;
ghost use Rattle.report_bits.specs.Marked.{AreBitNets, KnownUnlessDue, QuietUnlessDue};

use crate::bits::{BitWriter, put_bit};
use crate::lines::{MomentBits, ReportLines, WaveLines};
use crate::nets::BitNets;
use crate::rounds::{mark_told, mark_unknown};
use base_lists::Memory;
use recording_binding::BoundBit;
use replay_due::Due;
use std::alloc::Global;
use std::mem;

/// The lines of all moments. Takes two bits for each bit, or for each net where there are more of these. Takes time
/// linear in the text, in the steps, in the bits of the first moment and in what the history and the wave write anew,
/// and with the lines of all moments in the bits of which x or z is recorded.
pub fn put_moments<'w, 'a>(
    alloc: Global,
    writer: &mut BitWriter<'w, 'a>,
    from: &WaveLines<'w, 'a>,
    bits: &BitNets,
) -> Result<(), Memory>
    requires bits { AreBitNets (length from.now.wave.now.design.nets) bits.now }
    requires writer { IsWriterOf from.now.wave.now writer.old }
    ensures { let nets = bits.now.nets.items in
        let all = spec.moments_lines from.now.wave.now from.now.lines nets 0 (view.moment_count from.now) in
        OnOk result (writer.new.text.items ≡ writer.old.text.items ++ all) }
{
    let nets = bits.nets.as_slice();
    let mut due = Due::none(alloc, bits.room)?;
    let mut unknown = Due::none(alloc, bits.room)?;
    let moments = from.wave.stim().times.as_slice().len() as u32;
    'moments: for moment in 0..moments {
        mark_moment(alloc, from, bits, moment, &mut due)?;
        unknown.clear();
        let here = MomentBits {
            from: *from,
            moment,
            nets,
        };
        put_due(alloc, writer, &here, &due, &mut unknown)?;
        mem::swap(&mut due, &mut unknown);
    }
    Ok(())
}

/// Each bit becomes due that may have a line in a moment. With the lines of all moments these are those of which x or z
/// is recorded in it, where each was due of which it is in the moment before; with those of changes, those whose net is
/// written in it, and no others are due. At the first moment, and where the history doesn't tell what is written, all
/// become due.
fn mark_moment(
    alloc: Global,
    from: &WaveLines<'_, '_>,
    bits: &BitNets,
    moment: u32,
    due: &mut Due,
) -> Result<(), Memory>
    requires moment { moment < view.moment_count from.now }
    requires bits { AreBitNets (length from.now.wave.now.design.nets) bits.now }
    requires room { HasRoomFor due.old bits.now.room }
    requires before { from.now.lines ≡ ReportLines.All → 0 < moment →
        KnownUnlessDue from.now.wave.now bits.now.nets.items (view.step_in from.now (moment - 1)) due.old }
    ensures room { OnOk result (HasRoomFor due.new bits.now.room) }
    ensures quiet { OnOk result
        (QuietUnlessDue from.now.wave.now from.now.lines moment bits.now.nets.items due.new) }
    ensures known { OnOk result (from.now.lines ≡ ReportLines.All →
        KnownUnlessDue from.now.wave.now bits.now.nets.items (view.step_in from.now moment) due.new) }
{
    if moment > 0 && mark_rounds(from, bits, moment, due) {
        return Ok(());
    }
    *due = Due::all(alloc, bits.room)?;
    Ok(())
}

/// The same at a later moment. False where the history doesn't tell.
fn mark_rounds(from: &WaveLines<'_, '_>, bits: &BitNets, moment: u32, due: &mut Due) -> bool
    requires later { 0 < moment }
    requires moment { moment < view.moment_count from.now }
    requires bits { AreBitNets (length from.now.wave.now.design.nets) bits.now }
    requires room { HasRoomFor due.old bits.now.room }
    requires before { from.now.lines ≡ ReportLines.All →
        KnownUnlessDue from.now.wave.now bits.now.nets.items (view.step_in from.now (moment - 1)) due.old }
    ensures long { length due.new ≡ length due.old }
    ensures quiet { result ≡ true →
        QuietUnlessDue from.now.wave.now from.now.lines moment bits.now.nets.items due.new }
    ensures known { result ≡ true → from.now.lines ≡ ReportLines.All →
        KnownUnlessDue from.now.wave.now bits.now.nets.items (view.step_in from.now moment) due.new }
{
    match from.lines {
        ReportLines::All => mark_unknown(from.wave, bits, moment, due),
        ReportLines::Changes => {
            due.clear();
            mark_told(from.wave, bits, moment, due)
        }
    }
}

/// The lines of a moment, of which each bit that isn't due has none. Those of which x or z is recorded join the unknown
/// ones. Costs the bits that are due.
fn put_due<'w, 'a>(
    alloc: Global,
    writer: &mut BitWriter<'w, 'a>,
    here: &MomentBits<'_, 'w, 'a>,
    due: &Due,
    unknown: &mut Due,
) -> Result<(), Memory>
    requires writer { IsWriterOf here.now.from.wave.now writer.old }
    requires due { view.QuietHere here.now due.now }
    requires room { HasRoomFor unknown.old (length here.now.nets.now) }
    ensures text { OnOk result (writer.new.text.items ≡ writer.old.text.items ++ view.lines_here here.now) }
    ensures writer { OnOk result (IsWriterOf here.now.from.wave.now writer.new) }
    ensures long { OnOk result (length unknown.new ≡ length unknown.old) }
    ensures unknown { OnOk result (view.KnownHere here.now due.now → view.KnownHere here.now unknown.new) }
{
    let mut number = due.first_from(0);
    'bits: while number < here.nets.len() {
        put_number(alloc, writer, here, number, unknown)?;
        number = due.first_from(number + 1);
    }
    Ok(())
}

/// The line of a bit, which joins the unknown ones where x or z is recorded of it.
fn put_number<'w, 'a>(
    alloc: Global,
    writer: &mut BitWriter<'w, 'a>,
    here: &MomentBits<'_, 'w, 'a>,
    number: usize,
    unknown: &mut Due,
) -> Result<(), Memory>
    requires number { number < length here.now.nets.now }
    requires writer { IsWriterOf here.now.from.wave.now writer.old }
    requires room { HasRoomFor unknown.old (length here.now.nets.now) }
    ensures text { OnOk result (writer.new.text.items ≡ writer.old.text.items ++ view.line_here here.now number) }
    ensures writer { OnOk result (IsWriterOf here.now.from.wave.now writer.new) }
    ensures long { OnOk result (length unknown.new ≡ length unknown.old) }
    ensures unknown { OnOk result
        (view.KnownHereTo here.now number unknown.old → view.KnownHereTo here.now (number + 1) unknown.new) }
{
    let bit = BoundBit {
        moment: here.moment,
        variable: 0,
        bit: 0,
        net: here.nets[number],
    };
    if !put_bit(alloc, writer, &here.from, bit)? {
        return Ok(());
    }
    unknown.insert(number);
    Ok(())
}
