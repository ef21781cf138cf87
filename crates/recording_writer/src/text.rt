//! The text of the repaired recording.

ghost use Rattle.std.specs.Prelude.{◌≡◌, ◌++◌, ◌<◌, All, OnOk, IfOk, length};
ghost use Rattle.recording_binding.specs.Binding.{FitsBinding};
ghost use Rattle.recording_writer.specs.Moments.{lines_from, moment_lines};
ghost use Rattle.recording_writer.specs.Readers.{AreReadersOf};
ghost use Rattle.recording_writer.specs.Rows.{moment_view};
ghost use Rattle.recording_writer.specs.Steps.{HasBits, HasMoments};
ghost use Rattle.recording_writer.specs.Text as spec;
ghost use Rattle.replay_due.specs.Due.{HasRoomFor};

use crate::declarations::put_declarations;
use crate::marked::mark_moment;
use crate::moments::{put_marked, put_moment};
use crate::puts::put_section;
use crate::readers::BitReaders;
use crate::rows::MomentRows;
use crate::shown::Shown;
use base_lists::{Memory, put};
use design_circuit::{Bytes, Design, History, HistoryRow, Stim};
use recording_binding::{Binding, Bound};
use replay_due::Due;
use std::alloc::Global;

/// The text of a recording with what the history shows: its variables, and at each moment the values at its last round.
///
/// Takes what `text_of_rows` does, and 2 bytes for each net.
pub fn vcd_text(
    alloc: Global,
    design: &Design,
    bound: &Binding,
    stim: &Stim,
    history: &History,
) -> Result<Vec<u8>, Memory>
    requires binding { FitsBinding design.now bound.now }
    requires steps { spec.HasSteps design.now stim.now history.now }
    ensures { IfOk result (λ text. text.items ≡ spec.vcd_text design.now bound.now stim.now history.now) }
{
    let row = HistoryRow::first(alloc, history)?;
    let before = HistoryRow::first(alloc, history)?;
    let rows = MomentRows::first(row, before, stim.rounds);
    text_of_rows(alloc, design, bound, stim, rows)
}

/// The same of the history that rows show, which stand at the first moment.
///
/// Takes the text's bytes, 8 for each net, or for each bound variable where there are more of these, and 4 for each bit
/// of one; on the way 16 more for each. With more than 2^32 bits it answers `Memory`. Takes time linear in the text, in
/// what is written in each moment and in the bits of the variables that have a written one; with more than 2^20 bound
/// variables, in all bits at each moment.
#[tactic(auto, unfolding(crate::specs::Text::vcd_text))]
pub fn text_of_rows<R: Shown>(
    alloc: Global,
    design: &Design,
    bound: &Binding,
    stim: &Stim,
    rows: MomentRows<R>,
) -> Result<Vec<u8>, Memory>
    requires binding { FitsBinding design.now bound.now }
    requires steps { spec.HasSteps design.now stim.now rows.history }
    requires first { rows ≡ moment_view rows.history stim.now.rounds 0 }
    ensures { IfOk result (λ text. text.items ≡ spec.vcd_text design.now bound.now stim.now rows.history) }
{
    let mut text = Vec::new(alloc);
    put(&mut text, b"$version xrepair $end\n")?;
    put_timescale(&mut text, &bound.timescale)?;
    put_declarations(&mut text, design, bound.bound.as_slice())?;
    put(&mut text, b"$enddefinitions $end\n")?;
    put_moments(alloc, &mut text, design, bound, stim, rows)?;
    Ok(text)
}

fn put_timescale(text: &mut Vec<u8>, timescale: &Option<Bytes>) -> Result<(), Memory>
    ensures { OnOk result (text.new.items ≡ text.old.items ++ spec.timescale_line timescale.now) }
{
    let Some(scale) = timescale else {
        return Ok(());
    };
    put_section(text, b"$timescale ", scale.as_slice())
}

/// The moments: by what is written in each, or as a whole where too many variables are bound.
fn put_moments<R: Shown>(
    alloc: Global,
    text: &mut Vec<u8>,
    design: &Design,
    bound: &Binding,
    stim: &Stim,
    rows: MomentRows<R>,
) -> Result<(), Memory>
    requires binding { FitsBinding design.now bound.now }
    requires steps { spec.HasSteps design.now stim.now rows.history }
    requires first { rows ≡ moment_view rows.history stim.now.rounds 0 }
    ensures { let lines = lines_from rows.history stim.now.rounds bound.now.bound 0 stim.now.times in
        OnOk result (text.new.items ≡ text.old.items ++ lines) }
{
    match BitReaders::of(alloc, design, bound)? {
        Some(readers) => put_changes(alloc, text, bound, &readers, stim, rows),
        None => put_whole(text, bound.bound.as_slice(), stim, rows),
    }
}

/// The moments, each as a whole.
fn put_whole<R: Shown>(
    text: &mut Vec<u8>,
    bound: &[Bound],
    stim: &Stim,
    rows: MomentRows<R>,
) -> Result<(), Memory>
    requires moments { HasMoments rows.history (length stim.now.times) stim.now.rounds }
    requires bits { All (HasBits rows.history) bound.now }
    requires first { rows ≡ moment_view rows.history stim.now.rounds 0 }
    ensures { let lines = lines_from rows.history stim.now.rounds bound.now 0 stim.now.times in
        OnOk result (text.new.items ≡ text.old.items ++ lines) }
{
    let mut rows = rows;
    'moments: for time in stim.times.as_slice() {
        put_moment(text, bound, &rows, *time)?;
        rows.next_moment();
    }
    Ok(())
}

/// The moments, each by what is written in it.
fn put_changes<R: Shown>(
    alloc: Global,
    text: &mut Vec<u8>,
    bound: &Binding,
    readers: &BitReaders,
    stim: &Stim,
    rows: MomentRows<R>,
) -> Result<(), Memory>
    requires readers { AreReadersOf rows.history.nets bound.now readers.now }
    requires moments { HasMoments rows.history (length stim.now.times) stim.now.rounds }
    requires bits { All (HasBits rows.history) bound.now.bound }
    requires first { rows ≡ moment_view rows.history stim.now.rounds 0 }
    ensures { let lines = lines_from rows.history stim.now.rounds bound.now.bound 0 stim.now.times in
        OnOk result (text.new.items ≡ text.old.items ++ lines) }
{
    let mut rows = rows;
    let mut due = Due::none(alloc, readers.room)?;
    'moments: for time in stim.times.as_slice() {
        put_next(text, bound, readers, &mut due, stim, &rows, *time)?;
        rows.next_moment();
    }
    Ok(())
}

/// Puts the moment at which the rows stand by what is written in it; as a whole the first one, and one where the rows
/// don't tell.
fn put_next<R: Shown>(
    text: &mut Vec<u8>,
    bound: &Binding,
    readers: &BitReaders,
    due: &mut Due,
    stim: &Stim,
    rows: &MomentRows<R>,
    time: u64,
) -> Result<(), Memory>
    requires readers { AreReadersOf rows.now.history.nets bound.now readers.now }
    requires rounds { rows.now.rounds ≡ stim.now.rounds }
    requires moments { HasMoments rows.now.history (length stim.now.times) stim.now.rounds }
    requires moment { rows.now.moment < length stim.now.times }
    requires bits { All (HasBits rows.now.history) bound.now.bound }
    requires room { HasRoomFor due.old readers.now.room }
    ensures long { length due.new ≡ length due.old }
    ensures lines { let lines = moment_lines rows.now.history stim.now.rounds bound.now.bound rows.now.moment time in
        OnOk result (text.new.items ≡ text.old.items ++ lines) }
{
    let variables = bound.bound.as_slice();
    if !mark_moment(readers, stim, rows.row(), rows.moment(), due) {
        return put_moment(text, variables, rows, time);
    }
    put_marked(text, variables, due, rows, time)
}
