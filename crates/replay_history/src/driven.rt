//! What the driver at a position of a step gives, from what the places before have.

ghost use Rattle.std.specs.Prelude.{◌≡◌, ◌<◌};
ghost use Rattle.design_circuit.specs.Handed.{HasPlaces};
ghost use Rattle.replay_history.specs.Going.{job_at};
ghost use Rattle.replay_history.specs.Seen.{driven_at, kept_before, net_at};

use crate::held::kept_so_far;
use crate::step::Step;
use design_cell::Value;
use design_circuit::{Driver, HistoryWriter, ShownSoFar, Spot, driven_value, width_of};

/// What it gives.
pub fn given_value(
    step: &Step<'_>,
    writer: &HistoryWriter,
    position: u32,
    net: u32,
    driver: &Driver,
) -> Value
    requires places { HasPlaces (job_at step.now) writer.now.history }
    requires position { position < (job_at step.now).width }
    requires net { net ≡ net_at step.now.circuit.now position }
    requires driver { driver.now ≡ (job_at step.now).driver net }
    ensures { result ≡ driven_at step.now.circuit.now writer.now.history step.now.number net driver.now }
{
    let spot = Spot {
        step: step.number as usize,
        position: position as usize,
        net: net as usize,
    };
    let place = spot.step * width_of(step.circuit) + spot.position;
    let was = was_kept(step, writer, net, driver);
    let shown = ShownSoFar {
        circuit: *step.circuit,
        history: writer,
    };
    driven_value(step.circuit, &shown, place, spot, driver, was)
}

/// What a register kept one step before; x before step 0, and where the driver is no register.
fn was_kept(step: &Step<'_>, writer: &HistoryWriter, net: u32, driver: &Driver) -> Value
    requires places { HasPlaces (job_at step.now) writer.now.history }
    requires net { net < (job_at step.now).width }
    ensures { result ≡ kept_before step.now.circuit.now writer.now.history step.now.number net driver.now }
{
    match driver {
        Driver::Register(_) => {
            if step.number == 0 {
                Value::X
            } else {
                kept_so_far(step.circuit, writer, step.number - 1, net)
            }
        }
        _ => Value::X,
    }
}
