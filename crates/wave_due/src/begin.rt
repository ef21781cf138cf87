//! What the history makes due as a step begins.

ghost use Rattle.std.specs.Prelude.{◌≡◌, ◌-◌, ◌*◌, ◌<◌, ◌≤◌, IsTrue, length};
ghost use Rattle.design_circuit.specs.Circuit.{job_in};
ghost use Rattle.design_circuit.specs.Handed.{HasPlaces, shown_of};
ghost use Rattle.design_circuit.specs.Row.{IsBlankAt};
ghost use Rattle.replay_fans.specs.Marks.{OnlyMore};
ghost use Rattle.replay_due.specs.Due.{AreAllDue, HasRoomFor};
ghost use Rattle.wave_due.specs.Sources.{ShowsOn};

use design_circuit::{Circuit, History, width_of};
use replay_due::Due;
use replay_fans::mark_changes;

/// The positions become due at which the history shows something else in a step than one step before.
pub fn mark_history(circuit: &Circuit<'_>, history: &History, step: usize, due: &mut Due)
    requires places { HasPlaces (job_in circuit.now) history.now }
    requires later { 0 < step }
    requires step { step < (job_in circuit.now).moments * (job_in circuit.now).rounds }
    requires room { HasRoomFor due.old (job_in circuit.now).width }
    ensures long { length due.new ≡ length due.old }
    ensures more { OnlyMore due.old due.new }
    ensures shows { ShowsOn (job_in circuit.now) (shown_of (job_in circuit.now) history.now) step 0 due.new }
{
    match history.written(step) {
        Some(changes) => mark_changes(circuit, changes, due),
        None => mark_ended(circuit, history, step, due),
    }
}

/// The same where every place of the step is blank: those of the step before may not be.
fn mark_ended(circuit: &Circuit<'_>, history: &History, step: usize, due: &mut Due)
    requires places { HasPlaces (job_in circuit.now) history.now }
    requires later { 0 < step }
    requires step { step < (job_in circuit.now).moments * (job_in circuit.now).rounds }
    requires blank { IsBlankAt history.now step }
    requires room { HasRoomFor due.old (job_in circuit.now).width }
    ensures long { length due.new ≡ length due.old }
    ensures more { OnlyMore due.old due.new }
    ensures shows { ShowsOn (job_in circuit.now) (shown_of (job_in circuit.now) history.now) step 0 due.new }
{
    if is_blank_before(history, step) {
        return;
    }
    mark_every(circuit, due);
}

/// Whether it is known that every place of the step before is blank too.
fn is_blank_before(history: &History, step: usize) -> bool
    requires { 0 < step }
    ensures { IsTrue result → IsBlankAt history.now (step - 1) }
{
    step > 1 && history.written(step - 1).is_none()
}

/// Every position becomes due.
fn mark_every(circuit: &Circuit<'_>, due: &mut Due)
    requires room { HasRoomFor due.old (job_in circuit.now).width }
    ensures long { length due.new ≡ length due.old }
    ensures more { OnlyMore due.old due.new }
    ensures all { AreAllDue due.new (job_in circuit.now).width }
{
    let nets = width_of(circuit);
    'positions: for position in 0..nets {
        due.insert(position);
    }
}
