//! The events of changes, put one behind the other.

ghost use Rattle.std.specs.Prelude.{◌≡◌, ◌<◌, ◌^◌, ◌++◌, OnOk};
ghost use Rattle.replay_forces.specs.Changes as spec;
ghost use Rattle.replay_forces.specs.Made.{event_at};

use base_lists::Memory;
use design_cell::Value;
use design_circuit::{Event, Spot};
use replay_history::is_same;

/// Puts the event of a place, unless its net was forced so before.
pub fn push_change(
    events: &mut Vec<Event>,
    spot: Spot,
    was: Option<Value>,
    force: Option<Value>,
) -> Result<(), Memory>
    requires step { spot.step < 2 ^ 32 }
    requires net { spot.net < 2 ^ 32 }
    ensures { OnOk result (events.new.items ≡ events.old.items ++ spec.unless_same was force (event_at spot force)) }
{
    if is_same_force(was, force) {
        return Ok(());
    }
    events.push(Event {
        step: spot.step as u32,
        net: spot.net as u32,
        value: force,
    })?;
    Ok(())
}

/// Whether a net is forced to the same value, or not forced, twice.
fn is_same_force(force: Option<Value>, other: Option<Value>) -> bool
    ensures { result ≡ spec.is_same_force force other }
{
    match (force, other) {
        (None, None) => true,
        (Some(value), Some(again)) => is_same(value, again),
        _ => false,
    }
}
