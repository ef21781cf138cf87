//! What becomes due as a step begins: nets that are forced otherwise.

ghost use Rattle.std.specs.Prelude.{◌≡◌, ◌≤◌, length};
ghost use Rattle.design_circuit.specs.Circuit.{job_in};
ghost use Rattle.replay_fans.specs.Marks.{OnlyMore};
ghost use Rattle.replay_history.specs.Forced.{AreOrdered};
ghost use Rattle.replay_history.specs.Marks.{AreEventsDue};
ghost use Rattle.replay_due.specs.Due.{HasRoomFor};

use design_circuit::{Circuit, Event};
use replay_due::Due;
use replay_fans::mark_net;

/// The nets of events become due.
pub fn mark_events(circuit: &Circuit<'_>, events: &[Event], from: usize, to: usize, due: &mut Due)
    requires ordered { AreOrdered (job_in circuit.now).width events.now }
    requires range { to ≤ length events.now }
    requires room { HasRoomFor due.old (job_in circuit.now).width }
    ensures long { length due.new ≡ length due.old }
    ensures more { OnlyMore due.old due.new }
    ensures events { AreEventsDue (job_in circuit.now) events.now from to due.new }
{
    'events: for index in from..to {
        mark_net(circuit, events[index].net, due);
    }
}
