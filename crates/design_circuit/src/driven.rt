//! What a driver gives and keeps, from the values shown at the places before.

ghost use Rattle.std.specs.Prelude.{◌≡◌, ℕ, ◌<◌, length};
ghost use Rattle.design_circuit.specs.Circuit.{job_in, IsSpot};
ghost use Rattle.design_circuit.specs.Fits.{FitsDriver, FitsRegister, FitsTable, Standing};
ghost use Rattle.design_circuit.specs.Order.{arguments_of_driver, net_pins};
ghost use Rattle.design_circuit.specs.Register.{pins_at};
ghost use Rattle.design_circuit.specs.Replay.{driven, kept_by, register_kept, seen, table_of};

use crate::circuit::Circuit;
use crate::design::{Driver, Latching, Pin, Table};
use crate::reads::{Source, net_value, pin_values};
use crate::register::updated_value;
use crate::rule::table_value;
use crate::spot::{Spot, recorded_at, start_at};
use design_cell::Value;

/// What the driver of a place gives, where its net kept this one step before.
pub fn driven_value<S: Source>(
    circuit: &Circuit<'_>,
    source: &S,
    place: usize,
    spot: Spot,
    driver: &Driver,
    was: Value,
) -> Value
    requires spot { IsSpot (job_in circuit.now) place spot }
    requires before { Standing (job_in circuit.now) spot.position (arguments_of_driver driver.now) }
    requires driver { FitsDriver (job_in circuit.now).udps (job_in circuit.now).width driver.now }
    requires has { (k : ℕ) → k < place → S.has source.now k }
    ensures { result ≡ driven (job_in circuit.now) (seen (S.reads source.now) was) spot.step spot.net driver.now }
{
    match driver {
        Driver::Input => recorded_at(circuit, spot.step, spot.net),
        Driver::Undriven => Value::Z,
        Driver::Constant(bit) => Value::from_bit(*bit),
        Driver::Copy(net) => net_value(circuit, source, spot.step, *net),
        Driver::Cell(table, pins) => cell_value(
            circuit,
            source,
            place,
            spot,
            *table,
            pins.as_slice(),
        ),
        Driver::Register(latching) => register_value(circuit, source, place, spot, latching, was),
    }
}

/// What a cell gives on the values of its pins at a step.
pub fn cell_value<S: Source>(
    circuit: &Circuit<'_>,
    source: &S,
    place: usize,
    spot: Spot,
    table: Table,
    pins: &[Pin],
) -> Value
    requires spot { IsSpot (job_in circuit.now) place spot }
    requires before { Standing (job_in circuit.now) spot.position (net_pins pins.now) }
    requires table { FitsTable (job_in circuit.now).udps table (length pins.now) }
    requires has { (k : ℕ) → k < place → S.has source.now k }
    ensures { result ≡
        table_of (job_in circuit.now).udps table (pins_at (job_in circuit.now) (S.reads source.now) spot.step pins.now) }
{
    let values = pin_values(circuit, source, spot.step, pins);
    table_value(circuit, table, &values[..pins.len()])
}

fn register_value<S: Source>(
    circuit: &Circuit<'_>,
    source: &S,
    place: usize,
    spot: Spot,
    latching: &Latching,
    was: Value,
) -> Value
    requires spot { IsSpot (job_in circuit.now) place spot }
    requires register { FitsRegister (job_in circuit.now).udps (job_in circuit.now).width latching.now }
    requires has { (k : ℕ) → k < place → S.has source.now k }
    ensures { result ≡
        register_kept (job_in circuit.now) (seen (S.reads source.now) was) spot.step spot.net latching.now }
{
    if spot.step == 0 {
        start_at(circuit, spot.net)
    } else {
        updated_value(circuit, source, was, spot.step, latching)
    }
}

/// What a driver keeps where it gives a value: x where it is no register.
pub fn kept_value(driver: &Driver, given: Value) -> Value
    ensures { result ≡ kept_by driver.now given }
{
    if matches!(driver, Driver::Register(_)) {
        given
    } else {
        Value::X
    }
}
