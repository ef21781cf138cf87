//! What becomes due: inputs that are recorded otherwise, nets that changed, and the readers of a net.

ghost use Rattle.std.specs.Prelude.{◌≡◌, ◌*◌, ◌<◌, ◌≤◌, true, false, length};
ghost use Rattle.design_circuit.specs.Circuit.{job_in};
ghost use Rattle.design_circuit.specs.Order.{position_of};
ghost use Rattle.replay_fans.specs.Marks.{AreChangesDue, AreInputsDue, OnlyMore};
ghost use Rattle.replay_fans.specs.Readings.{AreFans};
ghost use Rattle.base_ledger.specs.Change.{AreInWidth};
ghost use Rattle.replay_due.specs.Due.{GainsAll, HasRoomFor, is_due};
ghost use Rattle.replay_due.specs.Readers.{IsReaderTable, readers_of};

use crate::fans::Fans;
use crate::waiting::Waiting;
use design_circuit::{Change, Circuit, width_of};
use replay_due::{Due, Readers};

/// The inputs become due that a step records otherwise than the one before.
pub fn mark_inputs(circuit: &Circuit<'_>, step: u32, due: &mut Due)
    requires later { 0 < step }
    requires step { step < (job_in circuit.now).moments * (job_in circuit.now).rounds }
    requires room { HasRoomFor due.old (job_in circuit.now).width }
    ensures long { length due.new ≡ length due.old }
    ensures more { OnlyMore due.old due.new }
    ensures inputs { AreInputsDue (job_in circuit.now) step due.new }
{
    if step % circuit.stim.rounds != 0 {
        return;
    }
    let moment = (step / circuit.stim.rounds) as usize;
    mark_changes(circuit, circuit.stim.inputs.changed(moment), due);
}

/// The nets of changes become due.
pub fn mark_changes(circuit: &Circuit<'_>, changes: &[Change], due: &mut Due)
    requires nets { AreInWidth (job_in circuit.now).width changes.now }
    requires room { HasRoomFor due.old (job_in circuit.now).width }
    ensures long { length due.new ≡ length due.old }
    ensures more { OnlyMore due.old due.new }
    ensures changes { AreChangesDue (job_in circuit.now) (length changes.now) changes.now due.new }
{
    'changes: for change in changes {
        mark_net(circuit, change.position() as u32, due);
    }
}

/// The position of a net becomes due.
pub fn mark_net(circuit: &Circuit<'_>, net: u32, due: &mut Due)
    requires net { net < (job_in circuit.now).width }
    requires room { HasRoomFor due.old (job_in circuit.now).width }
    ensures long { length due.new ≡ length due.old }
    ensures more { OnlyMore due.old due.new }
    ensures here { is_due due.new (position_of (job_in circuit.now).order net) ≡ true }
{
    let position = circuit.order.position(net);
    due.insert(position as usize);
}

/// The copies and cells that read a net become due, and the registers that look back at it one step later.
pub fn mark_readers(circuit: &Circuit<'_>, fans: &Fans, net: u32, waiting: &mut Waiting)
    requires fans { AreFans (job_in circuit.now) fans.now }
    requires net { net < (job_in circuit.now).width }
    requires due_room { HasRoomFor waiting.old.due (job_in circuit.now).width }
    requires ahead_room { HasRoomFor waiting.old.ahead (job_in circuit.now).width }
    ensures due_long { length waiting.new.due ≡ length waiting.old.due }
    ensures ahead_long { length waiting.new.ahead ≡ length waiting.old.ahead }
    ensures due { GainsAll waiting.old.due waiting.new.due (readers_of fans.now.cells net) }
    ensures ahead { GainsAll waiting.old.ahead waiting.new.ahead (readers_of fans.now.registers net) }
{
    let nets = width_of(circuit);
    mark_all(&fans.cells, net as usize, nets, &mut waiting.due);
    mark_all(&fans.registers, net as usize, nets, &mut waiting.ahead);
}

/// The readers of a net, of so many, become due.
pub fn mark_all(readers: &Readers, net: usize, nets: usize, due: &mut Due)
    requires table { IsReaderTable nets readers.now }
    requires net { net < nets }
    requires room { HasRoomFor due.old nets }
    ensures long { length due.new ≡ length due.old }
    ensures gains { GainsAll due.old due.new (readers_of readers.now net) }
{
    due.insert_all(readers.of(net, nets));
}
