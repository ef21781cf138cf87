//! What becomes due as values move: nets that have another value than one step before, and what reads them.

ghost use Rattle.std.specs.Prelude.{◌≡◌, ℕ, ◌+◌, ◌*◌, ◌<◌};
ghost use Rattle.design_circuit.specs.Circuit.{job_in};
ghost use Rattle.design_circuit.specs.Job.{places_of};
ghost use Rattle.replay_fans.specs.Marks.{OnlyMore};
ghost use Rattle.replay_fans.specs.Readings.{AreFans};
ghost use Rattle.replay_forces.specs.Step as at;
ghost use Rattle.replay_forces.specs.Step.{HasFans, moving_job};
ghost use Rattle.replay_forces.specs.Still.{IsMarked, looked_on, watched};
ghost use Rattle.replay_due.specs.Due.{HasRoomFor};

use crate::step::MovingStep;
use crate::values::Moving;
use design_circuit::{Circuit, Source, width_of};
use replay_fans::{Fans, Waiting, mark_readers};
use replay_history::is_same;

/// The nets become due that have another value at a step than one step before, and the copies and cells that read them;
/// the registers that look back at them do one step later. Visits only places at which the values may move.
pub fn mark_moves<S: Moving>(step: &MovingStep<'_, '_>, values: &S, waiting: &mut Waiting)
    requires has { (place : ℕ) → place < places_of (moving_job step.now) → S.has values.now place }
    requires job { S.job values.now ≡ moving_job step.now }
    requires fans { HasFans step.now }
    requires later { 0 < step.now.number }
    requires due { HasRoomFor waiting.old.due (moving_job step.now).width }
    requires ahead { HasRoomFor waiting.old.ahead (moving_job step.now).width }
    ensures more { OnlyMore waiting.old.due waiting.new.due }
    ensures due { at.WatchedTo step.now (S.reads values.now) (moving_job step.now).width waiting.new.due }
    ensures ahead { at.LookedOnTo step.now (S.reads values.now) (moving_job step.now).width waiting.new.ahead }
{
    let start = step.number * width_of(step.circuit);
    let moves = values.moves_at(step.number);
    'moves: for anew in moves {
        let place = anew.number();
        mark_place(step, values, place, place - start, waiting);
    }
}

/// What becomes due for the place at a position of a step.
fn mark_place<S: Source>(
    step: &MovingStep<'_, '_>,
    values: &S,
    place: usize,
    position: usize,
    waiting: &mut Waiting,
)
    requires has { (k : ℕ) → k < place + 1 → S.has values.now k }
    requires fans { HasFans step.now }
    requires later { 0 < step.now.number }
    requires place { place ≡ step.now.number * (moving_job step.now).width + position }
    requires position { position < (moving_job step.now).width }
    requires due { at.WatchedTo step.now (S.reads values.now) position waiting.old.due }
    requires ahead { at.LookedOnTo step.now (S.reads values.now) position waiting.old.ahead }
    ensures more { OnlyMore waiting.old.due waiting.new.due }
    ensures due { at.WatchedTo step.now (S.reads values.now) (position + 1) waiting.new.due }
    ensures ahead { at.LookedOnTo step.now (S.reads values.now) (position + 1) waiting.new.ahead }
{
    if is_same(
        values.value(place),
        values.value(place - width_of(step.circuit)),
    ) {
        return;
    }
    mark_move(step.circuit, step.fans, position, waiting);
}

/// The net at a position becomes due, and what reads it.
fn mark_move(circuit: &Circuit<'_>, fans: &Fans, position: usize, waiting: &mut Waiting)
    requires fans { AreFans (job_in circuit.now) fans.now }
    requires position { position < (job_in circuit.now).width }
    requires due { HasRoomFor waiting.old.due (job_in circuit.now).width }
    requires ahead { HasRoomFor waiting.old.ahead (job_in circuit.now).width }
    ensures due { IsMarked (job_in circuit.now) (watched (job_in circuit.now)) position
        waiting.old.due waiting.new.due }
    ensures ahead { IsMarked (job_in circuit.now) (looked_on (job_in circuit.now)) position
        waiting.old.ahead waiting.new.ahead }
{
    let net = circuit.order.net(position as u32);
    waiting.due.insert(position);
    mark_readers(circuit, fans, net, waiting);
}
