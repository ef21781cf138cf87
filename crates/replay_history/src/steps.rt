//! The replay of a design: what a simulator of four values shows at each place, and what its registers keep.
//!
//! Step by step, and within a step in the order of the nets. A later step begins as a copy of the one before, and only
//! the places are computed that may differ: their number is what it costs.

ghost use Rattle.std.specs.Prelude.{◌≡◌, ◌-◌, ◌<◌, IfOk, OnOk};
ghost use Rattle.design_circuit.specs.Circuit.{job_in};
ghost use Rattle.design_circuit.specs.Force.{AreEvents};
ghost use Rattle.design_circuit.specs.Handed.{HasPlaces};
ghost use Rattle.replay_fans.specs.Readings.{AreFans};
ghost use Rattle.replay_history.specs.Forced.{HasTaken};
ghost use Rattle.replay_history.specs.Going.{AwaitedAfter, AwaitedAt, FilledAfter, FilledBefore, IsReplayIn, job_at};
ghost use Rattle.replay_due.specs.Due.{HasRoomFor};

use crate::computed::fill_step;
use crate::forced::take_events;
use crate::marks::mark_events;
use crate::step::Step;
use crate::sweep::sweep;
use base_lists::Memory;
use design_cell::Value;
use design_circuit::{Circuit, Event, Forces, History, HistoryWriter, width_of};
use replay_fans::{Fans, Waiting, mark_inputs};
use std::alloc::Global;

/// What each place shows and keeps under forces. Takes eight bytes for each place that has others than its net has a
/// step before, eight for each step, and some 40 for each net and each pin.
pub fn replay(alloc: Global, circuit: &Circuit<'_>, forces: &Forces) -> Result<History, Memory>
    requires { AreEvents (job_in circuit.now) forces.now }
    ensures { IfOk result (IsReplayIn circuit.now forces.now) }
{
    let mut writer = HistoryWriter::blank(alloc, circuit.design, circuit.stim)?;
    let nets = width_of(circuit);
    let mut forced = vec![in alloc; None; nets]?;
    fill_steps(alloc, circuit, forces.as_slice(), &mut forced, &mut writer)?;
    let history = writer.finish(alloc)?;
    Ok(history)
}

/// The steps, one behind the other. No net is forced yet.
fn fill_steps<'a>(
    alloc: Global,
    circuit: &'a Circuit<'a>,
    events: &'a [Event],
    forced: &mut [Option<Value>],
    writer: &mut HistoryWriter,
) -> Result<(), Memory>
    requires events { AreEvents (job_in circuit.now) events.now }
    requires forced { HasTaken (job_in circuit.now).width events.now 0 0 forced.old }
    requires first { writer.old.step ≡ 0 }
    requires places { HasPlaces (job_in circuit.now) writer.old.history }
    ensures { OnOk result (IsReplayIn circuit.now events.now writer.new.history) }
{
    let nets = width_of(circuit);
    let fans = Fans::of(alloc, circuit)?;
    let mut waiting = Waiting::all(alloc, nets)?;
    let mut taken = 0;
    let steps = circuit.stim.times.as_slice().len() * circuit.stim.rounds as usize;
    'steps: for number in 0..steps {
        let from = taken;
        taken = take_events(events, from, number as u32, forced);
        let step = Step {
            circuit: &*circuit,
            events: &*events,
            forced: &*forced,
            number: number as u32,
            from,
            to: taken,
        };
        next_step(&step, &fans, &mut waiting, writer)?;
    }
    Ok(())
}

/// The places of a step.
fn next_step(
    step: &Step<'_>,
    fans: &Fans,
    waiting: &mut Waiting,
    writer: &mut HistoryWriter,
) -> Result<(), Memory>
    requires fans { AreFans (job_at step.now) fans.now }
    requires due { AwaitedAt step.now waiting.old.due }
    requires ahead { HasRoomFor waiting.old.ahead (job_at step.now).width }
    requires under_way { writer.old.step ≡ step.now.number - 1 }
    requires filled { FilledBefore step.now writer.old.history }
    ensures under_way { OnOk result (writer.new.step ≡ step.now.number) }
    ensures filled { OnOk result (FilledAfter step.now writer.new.history) }
    ensures due { OnOk result (AwaitedAfter step.now waiting.new.due) }
    ensures ahead { OnOk result (HasRoomFor waiting.new.ahead (job_at step.now).width) }
{
    if step.number == 0 {
        fill_step(step, writer)?;
        return Ok(());
    }
    later_step(step, fans, waiting, writer)?;
    Ok(())
}

/// The places of a step behind another.
fn later_step(
    step: &Step<'_>,
    fans: &Fans,
    waiting: &mut Waiting,
    writer: &mut HistoryWriter,
) -> Result<(), Memory>
    requires later { 0 < step.now.number }
    requires fans { AreFans (job_at step.now) fans.now }
    requires due { AwaitedAt step.now waiting.old.due }
    requires ahead { HasRoomFor waiting.old.ahead (job_at step.now).width }
    requires under_way { writer.old.step ≡ step.now.number - 1 }
    requires filled { FilledBefore step.now writer.old.history }
    ensures under_way { OnOk result (writer.new.step ≡ step.now.number) }
    ensures filled { OnOk result (FilledAfter step.now writer.new.history) }
    ensures due { OnOk result (AwaitedAfter step.now waiting.new.due) }
    ensures ahead { OnOk result (HasRoomFor waiting.new.ahead (job_at step.now).width) }
{
    mark_events(
        step.circuit,
        step.events,
        step.from,
        step.to,
        &mut waiting.due,
    );
    mark_inputs(step.circuit, step.number, &mut waiting.due);
    writer.next_step()?;
    sweep(step, fans, waiting, writer)?;
    waiting.turn();
    Ok(())
}
