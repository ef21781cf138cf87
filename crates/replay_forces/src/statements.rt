//! What statements change, as forces.
//!
//! Step by step: the statements of a step are taken, the nets that they name become due, and of these, in the order of
//! the design, the ones have an event that are forced otherwise than one step before.

ghost use Rattle.std.specs.Prelude.{◌≡◌, ◌<◌, ◌≤◌, IfOk, None, OnOk, length, replicate};
ghost use Rattle.design_circuit.specs.Circuit.{job_in};
ghost use Rattle.replay_forces.specs.Changes.{changes_by};
ghost use Rattle.replay_forces.specs.Made.{HasChangesTo};
ghost use Rattle.replay_forces.specs.Step as at;
ghost use Rattle.replay_forces.specs.Step.{IsForcedAt, stated_job};
ghost use Rattle.replay_history.specs.Forced.{AreOrdered};

use crate::changes::push_change;
use crate::step::StatedStep;
use base_lists::Memory;
use design_cell::Value;
use design_circuit::{Circuit, Event, Forces, Spot, width_of};
use replay_due::Due;
use replay_history::{mark_events, take_events};
use std::alloc::Global;

/// What is put so far.
#[derive(Debug, Drop)]
pub struct Changes {
    /// To what the net at each position was forced last.
    pub row: Vec<Option<Value>>,
    /// The positions of the nets that the statements of a step name.
    pub due: Due,
    pub events: Vec<Event>,
}

/// The forces that force as statements do, of which several for one net may stand in a step: its last one counts there.
///
/// Takes the events and 3 bytes for each net, and time linear in the statements and in the steps; of a step that has
/// any a bit is looked at for each net.
pub fn changes_of(
    alloc: Global,
    circuit: &Circuit<'_>,
    statements: &[Event],
) -> Result<Forces, Memory>
    requires ordered { AreOrdered (job_in circuit.now).width statements.now }
    ensures { IfOk result (λ forces. forces ≡ changes_by (job_in circuit.now) statements.now) }
{
    let nets = width_of(circuit);
    let mut forced = vec![in alloc; None; nets]?;
    let mut changes = Changes {
        row: vec![in alloc; None; nets]?,
        due: Due::none(alloc, nets)?,
        events: Vec::new(alloc),
    };
    put_steps(circuit, statements, &mut forced, &mut changes)?;
    Ok(Forces::from_vec(changes.events))
}

/// The events of all steps, one behind the other.
fn put_steps(
    circuit: &Circuit<'_>,
    statements: &[Event],
    forced: &mut [Option<Value>],
    changes: &mut Changes,
) -> Result<(), Memory>
    requires ordered { AreOrdered (job_in circuit.now).width statements.now }
    requires forced { forced.old ≡ replicate (job_in circuit.now).width None }
    requires changes { HasChangesTo (job_in circuit.now) statements.now 0 changes.old }
    ensures { OnOk result (changes.new.events.items ≡ changes_by (job_in circuit.now) statements.now) }
{
    let mut taken = 0;
    let steps = circuit.stim.times.as_slice().len() * circuit.stim.rounds as usize;
    'steps: for number in 0..steps {
        let from = taken;
        taken = take_events(statements, from, number as u32, forced);
        let step = StatedStep {
            circuit,
            number,
            statements,
            forced: &*forced,
        };
        put_step(&step, from, taken, changes)?;
    }
    Ok(())
}

/// The events of a step, at which the statements from one on, up to another, are new.
fn put_step(
    step: &StatedStep<'_, '_>,
    from: usize,
    to: usize,
    changes: &mut Changes,
) -> Result<(), Memory>
    requires ordered { AreOrdered (stated_job step.now).width step.now.statements.now }
    requires range { to ≤ length step.now.statements.now }
    requires forced { IsForcedAt step.now }
    requires rest { at.RestsButFor step.now from to }
    requires changes { at.HasChangesBefore step.now changes.old }
    ensures { OnOk result (at.HasChangesAfter step.now changes.new) }
{
    if from < to {
        mark_events(step.circuit, step.statements, from, to, &mut changes.due);
        put_due(step, changes)?;
        changes.due.clear();
    }
    Ok(())
}

/// The events of a step whose places rest unless they are due.
fn put_due(step: &StatedStep<'_, '_>, changes: &mut Changes) -> Result<(), Memory>
    requires forced { IsForcedAt step.now }
    requires rest { at.RestsUnlessDue step.now changes.old.due }
    requires made { at.MadeBefore step.now changes.old }
    ensures made { OnOk result (at.MadeAfter step.now changes.new) }
    ensures due { changes.new.due ≡ changes.old.due }
{
    let nets = width_of(step.circuit);
    let mut position = changes.due.first_from(0);
    'positions: while position < nets {
        put_net(step, position, changes)?;
        position = changes.due.first_from(position + 1);
    }
    Ok(())
}

/// The event of the place at a position of a step.
fn put_net(step: &StatedStep<'_, '_>, position: usize, changes: &mut Changes) -> Result<(), Memory>
    requires position { position < (stated_job step.now).width }
    requires forced { IsForcedAt step.now }
    requires made { at.MadeTo step.now position changes.old }
    ensures made { OnOk result (at.MadeWith step.now position changes.new) }
    ensures due { changes.new.due ≡ changes.old.due }
{
    let net = step.circuit.order.net(position as u32) as usize;
    let spot = Spot {
        step: step.number,
        position,
        net,
    };
    let was = changes.row[position];
    changes.row[position] = step.forced[net];
    push_change(&mut changes.events, spot, was, step.forced[net])
}
