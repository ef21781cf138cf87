//! A step that begins as the one before: only what is due is computed, in the order of the nets.
//!
//! A net that shows another value than one step before makes the copies and cells that read it due behind it, and the
//! registers that look back at it one step later.

ghost use Rattle.std.specs.Prelude.{◌≡◌, ◌+◌, ◌<◌, OnOk, true, false};
ghost use Rattle.replay_fans.specs.Readings.{AreFans};
ghost use Rattle.replay_history.specs.Going.{AheadTo, DueFrom, FilledWith, StillAt, SweptTo, job_at};
ghost use Rattle.replay_due.specs.Due.{HasRoomFor};

use crate::computed::compute_place;
use crate::held::value_so_far;
use crate::step::Step;
use crate::values::is_same;
use base_lists::Memory;
use design_circuit::{HistoryWriter, width_of};
use replay_fans::{Fans, Waiting, mark_readers};

/// The places of the step under way, whose row is that of the step before.
pub fn sweep(
    step: &Step<'_>,
    fans: &Fans,
    waiting: &mut Waiting,
    writer: &mut HistoryWriter,
) -> Result<(), Memory>
    requires later { 0 < step.now.number }
    requires fans { AreFans (job_at step.now) fans.now }
    requires under_way { writer.old.step ≡ step.now.number }
    requires swept { SweptTo step.now 0 writer.old.history }
    requires due { DueFrom step.now 0 waiting.old.due }
    requires ahead { AheadTo step.now 0 waiting.old.ahead }
    ensures under_way { OnOk result (writer.new.step ≡ step.now.number) }
    ensures swept { OnOk result (SweptTo step.now (job_at step.now).width writer.new.history) }
    ensures due { OnOk result (HasRoomFor waiting.new.due (job_at step.now).width) }
    ensures ahead { OnOk result (AheadTo step.now (job_at step.now).width waiting.new.ahead) }
{
    let nets = width_of(step.circuit);
    let mut position = waiting.due.first_from(0);
    'positions: while position < nets {
        visit_place(step, fans, waiting, writer, position as u32)?;
        position = waiting.due.first_from(position + 1);
    }
    Ok(())
}

/// The place at a position of a step, and what becomes due where its net moves.
fn visit_place(
    step: &Step<'_>,
    fans: &Fans,
    waiting: &mut Waiting,
    writer: &mut HistoryWriter,
    position: u32,
) -> Result<(), Memory>
    requires later { 0 < step.now.number }
    requires position { position < (job_at step.now).width }
    requires fans { AreFans (job_at step.now) fans.now }
    requires under_way { writer.old.step ≡ step.now.number }
    requires swept { SweptTo step.now position writer.old.history }
    requires due { DueFrom step.now position waiting.old.due }
    requires ahead { AheadTo step.now position waiting.old.ahead }
    ensures under_way { OnOk result (writer.new.step ≡ step.now.number) }
    ensures swept { OnOk result (SweptTo step.now (position + 1) writer.new.history) }
    ensures due { OnOk result (DueFrom step.now (position + 1) waiting.new.due) }
    ensures ahead { OnOk result (AheadTo step.now (position + 1) waiting.new.ahead) }
{
    compute_place(step, writer, position)?;
    if stays_at(step, writer, position) {
        return Ok(());
    }
    let net = step.circuit.order.net(position);
    mark_readers(step.circuit, fans, net, waiting);
    Ok(())
}

/// Whether the net at a position shows the value that it showed one step before.
fn stays_at(step: &Step<'_>, writer: &HistoryWriter, position: u32) -> bool
    requires later { 0 < step.now.number }
    requires position { position < (job_at step.now).width }
    requires filled { FilledWith step.now position writer.now.history }
    ensures still { result ≡ true → StillAt step.now position }
    ensures moves { result ≡ false → StillAt step.now position → ⊥ }
{
    let net = step.circuit.order.net(position);
    let shown = value_so_far(step.circuit, writer, step.number, net);
    let before = value_so_far(step.circuit, writer, step.number - 1, net);
    is_same(shown, before)
}
