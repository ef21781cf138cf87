//! The forces under which the replay of a circuit shows given values, step by step.
//!
//! In a later step only the places are looked at and computed that may have another value than one step before, or
//! whose driver may give one: their number is what it costs.

ghost use Rattle.std.specs.Prelude.{◌≡◌, ℕ, ◌<◌, IfOk, OnOk};
ghost use Rattle.design_circuit.specs.Circuit.{job_in};
ghost use Rattle.design_circuit.specs.Job.{places_of};
ghost use Rattle.replay_fans.specs.Readings.{AreFans};
ghost use Rattle.replay_forces.specs.ForcesOf as spec;
ghost use Rattle.replay_forces.specs.Made.{HasForcesTo};
ghost use Rattle.replay_forces.specs.Step as at;
ghost use Rattle.replay_forces.specs.Step.{HasFans, moving_job};
ghost use Rattle.replay_forces.specs.Still.{AreAwaited};
ghost use Rattle.replay_due.specs.Due.{HasRoomFor};

use crate::given::{MadeForces, put_place};
use crate::moves::mark_moves;
use crate::step::MovingStep;
use crate::values::Moving;
use base_lists::Memory;
use design_cell::Value;
use design_circuit::{Circuit, Forces, Source, width_of};
use replay_due::Due;
use replay_fans::{Fans, Waiting, mark_inputs};
use std::alloc::Global;

/// The forces under which the replay of a circuit shows these values, and no more: those of the places, which stay as
/// they are. Takes the events, and some 30 bytes for each net and each pin.
pub fn forces_of_values<S: Moving>(
    alloc: Global,
    circuit: &Circuit<'_>,
    values: &mut S,
) -> Result<Forces, Memory>
    requires has { (place : ℕ) → place < places_of (job_in circuit.now) → S.has values.old place }
    requires job { S.job values.old ≡ job_in circuit.now }
    ensures { IfOk result (λ forces. spec.AreForcesOf (job_in circuit.now) (S.reads values.old) forces) }
{
    let nets = width_of(circuit);
    let fans = Fans::of(alloc, circuit)?;
    let mut waiting = Waiting::all(alloc, nets)?;
    let mut made = MadeForces {
        row: vec![in alloc; Value::X; nets]?,
        events: Vec::new(alloc),
    };
    put_steps(circuit, values, &fans, &mut waiting, &mut made)?;
    Ok(Forces::from_vec(made.events))
}

/// All steps, one behind the other.
fn put_steps<S: Moving>(
    circuit: &Circuit<'_>,
    values: &mut S,
    fans: &Fans,
    waiting: &mut Waiting,
    made: &mut MadeForces,
) -> Result<(), Memory>
    requires has { (place : ℕ) → place < places_of (job_in circuit.now) → S.has values.old place }
    requires job { S.job values.old ≡ job_in circuit.now }
    requires fans { AreFans (job_in circuit.now) fans.now }
    requires due { AreAwaited (job_in circuit.now) (S.reads values.old) 0 waiting.old.due }
    requires ahead { HasRoomFor waiting.old.ahead (job_in circuit.now).width }
    requires made { HasForcesTo (job_in circuit.now) (S.reads values.old) 0 made.old }
    ensures { OnOk result
        (HasForcesTo (job_in circuit.now) (S.reads values.old) (places_of (job_in circuit.now)) made.new) }
{
    let steps = circuit.stim.times.as_slice().len() * circuit.stim.rounds as usize;
    'steps: for number in 0..steps {
        values.go_to(number);
        let step = MovingStep {
            circuit,
            number,
            fans,
        };
        put_step(&step, values, waiting, made)?;
    }
    Ok(())
}

/// One step more.
fn put_step<S: Moving>(
    step: &MovingStep<'_, '_>,
    values: &S,
    waiting: &mut Waiting,
    made: &mut MadeForces,
) -> Result<(), Memory>
    requires has { (place : ℕ) → place < places_of (moving_job step.now) → S.has values.now place }
    requires job { S.job values.now ≡ moving_job step.now }
    requires fans { HasFans step.now }
    requires due { at.AwaitedAt step.now (S.reads values.now) waiting.old.due }
    requires ahead { HasRoomFor waiting.old.ahead (moving_job step.now).width }
    requires made { at.ForcesBefore step.now (S.reads values.now) made.old }
    ensures due { OnOk result (at.AwaitedAfter step.now (S.reads values.now) waiting.new.due) }
    ensures ahead { OnOk result (HasRoomFor waiting.new.ahead (moving_job step.now).width) }
    ensures made { OnOk result (at.ForcesAfter step.now (S.reads values.now) made.new) }
{
    if step.number == 0 {
        return put_due(step, values, &waiting.due, made);
    }
    mark_inputs(step.circuit, step.number as u32, &mut waiting.due);
    mark_moves(step, values, waiting);
    put_due(step, values, &waiting.due, made)?;
    waiting.turn();
    Ok(())
}

/// The places of a step that are due, of which the others rest.
fn put_due<S: Source>(
    step: &MovingStep<'_, '_>,
    values: &S,
    due: &Due,
    made: &mut MadeForces,
) -> Result<(), Memory>
    requires has { (place : ℕ) → place < places_of (moving_job step.now) → S.has values.now place }
    requires rest { at.GivenButDue step.now (S.reads values.now) due.now }
    requires made { at.ForcesBefore step.now (S.reads values.now) made.old }
    ensures { OnOk result (at.ForcesAfter step.now (S.reads values.now) made.new) }
{
    let nets = width_of(step.circuit);
    let start = step.number * nets;
    let mut position = due.first_from(0);
    'positions: while position < nets {
        put_place(step.circuit, values, start + position, made)?;
        position = due.first_from(position + 1);
    }
    Ok(())
}
