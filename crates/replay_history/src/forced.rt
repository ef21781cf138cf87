//! To which values the nets are forced, step by step.

ghost use Rattle.std.specs.Prelude.{◌≡◌, ◌+◌, ◌<◌, ◌≤◌, IfOk, length};
ghost use Rattle.replay_history.specs.Forced as spec;
ghost use Rattle.replay_history.specs.Forced.{AreOrdered, ChangesOnlyBy, HasForced, HasTaken};

use design_cell::Value;
use design_circuit::Event;

/// Takes the events up to a step, behind the first ones that were taken before, and says how many are taken then. For
/// each net the values have that of its last event among these.
pub fn take_events(events: &[Event], taken: usize, step: u32, values: &mut [Option<Value>]) -> usize
    requires ordered { AreOrdered (length values.old) events.now }
    requires taken { HasTaken (length values.old) events.now step taken values.old }
    ensures taken { HasTaken (length values.old) events.now step result values.new }
    ensures forced { HasForced (length values.old) events.now step values.new }
    ensures grows { taken ≤ result }
    ensures elsewhere { ChangesOnlyBy events.now taken result values.old values.new }
{
    let mut next = taken;
    'events: while comes_up_to(events, next, step) {
        let event = events[next];
        values[event.net as usize] = event.value;
        next += 1;
    }
    next
}

/// Whether one more event comes up to the step.
fn comes_up_to(events: &[Event], next: usize, step: u32) -> bool
    ensures { result ≡ spec.comes_up_to events.now next step }
{
    next < events.len() && events[next].step <= step
}
