//! One place of the forces under which the replay of a circuit shows given values.
//!
//! The driver gives its value from the places before, which show theirs already, and the place is forced where that
//! isn't its own. One row is kept, of what the driver of each net gave one step before.

ghost use Rattle.std.specs.Prelude.{◌≡◌, ℕ, ◌+◌, ◌-◌, ◌<◌, ◌≤◌, OnOk};
ghost use Rattle.design_circuit.specs.Circuit.{job_in};
ghost use Rattle.design_circuit.specs.Job.{places_of};
ghost use Rattle.replay_forces.specs.Changes.{forced_before};
ghost use Rattle.replay_forces.specs.ForcesOf as spec;
ghost use Rattle.replay_forces.specs.Made.{HasForcesTo};

use crate::changes::push_change;
use base_lists::Memory;
use design_cell::Value;
use design_circuit::{Circuit, Event, Source, driven_value, driver_at, spot_of, width_of};
use replay_history::is_same;

/// What is made so far.
#[derive(Drop)]
pub struct MadeForces {
    /// What the driver of the net at each position gave last.
    pub row: Vec<Value>,
    pub events: Vec<Event>,
}

/// One place more.
pub fn put_place<S: Source>(
    circuit: &Circuit<'_>,
    values: &S,
    place: usize,
    made: &mut MadeForces,
) -> Result<(), Memory>
    requires place { place < places_of (job_in circuit.now) }
    requires has { (k : ℕ) → k < place + 1 → S.has values.now k }
    requires made { HasForcesTo (job_in circuit.now) (S.reads values.now) place made.old }
    ensures { OnOk result (HasForcesTo (job_in circuit.now) (S.reads values.now) (place + 1) made.new) }
{
    let spot = spot_of(circuit, place);
    let was = made.row[spot.position];
    let driver = driver_at(circuit, spot.net);
    let given = driven_value(circuit, values, place, spot, driver, was);
    let before = force_before(circuit, values, place, was);
    made.row[spot.position] = given;
    push_change(
        &mut made.events,
        spot,
        before,
        needed(given, values.value(place)),
    )
}

/// To what the net of a place was forced one step before, where its driver gave this then.
fn force_before<S: Source>(
    circuit: &Circuit<'_>,
    values: &S,
    place: usize,
    was: Value,
) -> Option<Value>
    requires has { (k : ℕ) → k < place → S.has values.now k }
    requires some { 0 < (job_in circuit.now).width }
    requires was { (job_in circuit.now).width ≤ place
        → was ≡ spec.given_of (job_in circuit.now) (S.reads values.now) (place - (job_in circuit.now).width) }
    ensures { result ≡
        forced_before (job_in circuit.now) (spec.forcing (job_in circuit.now) (S.reads values.now)) place }
{
    let width = width_of(circuit);
    if place < width {
        None
    } else {
        needed(was, values.value(place - width))
    }
}

/// To what a place is forced where its driver gives a value.
fn needed(given: Value, value: Value) -> Option<Value>
    ensures { result ≡ spec.needed given value }
{
    if is_same(given, value) {
        None
    } else {
        Some(value)
    }
}
