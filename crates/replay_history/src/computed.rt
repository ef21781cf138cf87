//! One place of the replay, from what the places before have.

ghost use Rattle.std.specs.Prelude.{◌≡◌, ◌<◌, OnOk, unwrap_or};
ghost use Rattle.design_circuit.specs.Replay.{kept_by};
ghost use Rattle.replay_history.specs.Going.{FilledAfter, FilledBefore, FilledTo, FilledWith, KeepsOthers, job_at};

use crate::driven::given_value;
use crate::step::Step;
use base_lists::Memory;
use design_cell::Value;
use design_circuit::{Driver, HistoryWriter, Place, driver_at, kept_value, width_of};

/// Every place of the step under way, in the order of the nets.
pub fn fill_step(step: &Step<'_>, writer: &mut HistoryWriter) -> Result<(), Memory>
    requires under_way { writer.old.step ≡ step.now.number }
    requires filled { FilledBefore step.now writer.old.history }
    ensures under_way { OnOk result (writer.new.step ≡ step.now.number) }
    ensures filled { OnOk result (FilledAfter step.now writer.new.history) }
{
    let nets = width_of(step.circuit);
    'positions: for position in 0..nets {
        compute_place(step, writer, position as u32)?;
    }
    Ok(())
}

/// The place at a position of the step under way.
pub fn compute_place(
    step: &Step<'_>,
    writer: &mut HistoryWriter,
    position: u32,
) -> Result<(), Memory>
    requires position { position < (job_at step.now).width }
    requires under_way { writer.old.step ≡ step.now.number }
    requires filled { FilledTo step.now position writer.old.history }
    ensures under_way { OnOk result (writer.new.step ≡ step.now.number) }
    ensures filled { OnOk result (FilledWith step.now position writer.new.history) }
    ensures others { OnOk result (KeepsOthers step.now position writer.old.history writer.new.history) }
{
    let net = step.circuit.order.net(position);
    let driver = driver_at(step.circuit, net as usize);
    let value = given_value(step, writer, position, net, driver);
    let (shown, kept) = place_values(step.forced[net as usize], driver, value);
    let place = Place {
        step: step.number,
        net,
    };
    writer.set(place, shown, kept)?;
    Ok(())
}

/// What a place shows and keeps where its driver gives a value.
fn place_values(forced: Option<Value>, driver: &Driver, value: Value) -> (Value, Value)
    ensures shown { result.0 ≡ unwrap_or forced value }
    ensures kept { result.1 ≡ kept_by driver.now value }
{
    (forced.unwrap_or(value), kept_value(driver, value))
}
