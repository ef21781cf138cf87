//! The row of a primitive that gave the replay its value at a place.

ghost use Rattle.std.specs.Prelude.{◌≡◌, ◌*◌, ◌<◌, ◌≤◌, ◌==◌, false, length, take};
ghost use Rattle.std.specs.List.{AllByRecursion};
ghost use Rattle.design_circuit.specs.Circuit.{job_in};
ghost use Rattle.design_circuit.specs.Fits.{FitsRegister, FitsTable};
ghost use Rattle.design_circuit.specs.Handed.{HasPlaces, shown_of};
ghost use Rattle.design_circuit.specs.Order.{net_pins};
ghost use Rattle.design_circuit.specs.Register.{old_pins, pins_at};
ghost use Rattle.wave_proved.specs.Contents.{job};
ghost use Rattle.report_audit.specs.Listed.{IsAudit};
ghost use Rattle.report_audit.specs.Row as spec;

use design_cell::Value;
use design_circuit::{Circuit, Driver, History, Latching, Pin, Place, Shown, Table, pin_values};
use wave_proved::Wave;

/// The row of the primitive that drives a place which the replay's value there comes from, the first being 1; none
/// where no primitive drives it, no pin changed or no row matches.
pub fn row_at(wave: &Wave<'_>, replayed: &History, place: Place) -> Option<usize>
    requires audit { IsAudit wave.now replayed.now }
    requires step { place.step < (job wave.now).moments * (job wave.now).rounds }
    requires net { place.net < (job wave.now).width }
    ensures { spec.IsRowAt (job wave.now) replayed.now place result }
{
    let circuit = wave.circuit();
    match &circuit.design.nets.as_slice()[place.net as usize].driver {
        Driver::Cell(table, pins) => {
            cell_row(&circuit, replayed, place.step, *table, pins.as_slice())
        }
        Driver::Register(latching) => register_row(&circuit, replayed, place, latching),
        _ => None,
    }
}

fn cell_row(
    circuit: &Circuit<'_>,
    replayed: &History,
    step: u32,
    table: Table,
    pins: &[Pin],
) -> Option<usize>
    requires places { HasPlaces (job_in circuit.now) replayed.now }
    requires step { step < (job_in circuit.now).moments * (job_in circuit.now).rounds }
    requires table { FitsTable (job_in circuit.now).udps table (length pins.now) }
    requires nets { AllByRecursion (λ n. n < (job_in circuit.now).width) (net_pins pins.now) }
    ensures { spec.IsCellRow (job_in circuit.now) replayed.now step table pins.now result }
{
    match table {
        Table::Gate(_) => None,
        Table::Udp(number) => {
            let values = shown_pins(circuit, replayed, step, pins);
            circuit.design.udps.as_slice()[number as usize].row_of(&values[..pins.len()])
        }
    }
}

fn register_row(
    circuit: &Circuit<'_>,
    replayed: &History,
    place: Place,
    latching: &Latching,
) -> Option<usize>
    requires places { HasPlaces (job_in circuit.now) replayed.now }
    requires step { place.step < (job_in circuit.now).moments * (job_in circuit.now).rounds }
    requires net { place.net < (job_in circuit.now).width }
    requires register { FitsRegister (job_in circuit.now).udps (job_in circuit.now).width latching.now }
    ensures { spec.IsRegisterRow (place.step == 0) (job_in circuit.now) replayed.now place latching.now result }
{
    if place.step == 0 {
        None
    } else {
        later_row(circuit, replayed, place, latching)
    }
}

fn later_row(
    circuit: &Circuit<'_>,
    replayed: &History,
    place: Place,
    latching: &Latching,
) -> Option<usize>
    requires places { HasPlaces (job_in circuit.now) replayed.now }
    requires later { 0 < place.step }
    requires step { place.step < (job_in circuit.now).moments * (job_in circuit.now).rounds }
    requires net { place.net < (job_in circuit.now).width }
    requires register { FitsRegister (job_in circuit.now).udps (job_in circuit.now).width latching.now }
    ensures { spec.IsLaterRow (job_in circuit.now) replayed.now place latching.now result }
{
    let before = Place {
        step: place.step - 1,
        net: place.net,
    };
    let pins = latching.pins.as_slice();
    let old = old_pins(circuit, replayed, place.step, pins);
    let new = shown_pins(circuit, replayed, place.step - 1, pins);
    circuit.design.udps.as_slice()[latching.udp as usize].last_row(
        latching.clocks,
        &old[..pins.len()],
        &new[..pins.len()],
        replayed.kept(before),
    )
}

/// The values that the replay shows at the pins two steps back, in the first places.
fn old_pins(circuit: &Circuit<'_>, replayed: &History, step: u32, pins: &[Pin]) -> [Value; 10]
    requires places { HasPlaces (job_in circuit.now) replayed.now }
    requires later { 0 < step }
    requires step { step < (job_in circuit.now).moments * (job_in circuit.now).rounds }
    requires few { length pins.now ≤ 10 }
    requires nets { AllByRecursion (λ n. n < (job_in circuit.now).width) (net_pins pins.now) }
    ensures long { length result ≡ 10 }
    ensures values { take (length pins.now) result
        ≡ old_pins (job_in circuit.now) (shown_of (job_in circuit.now) replayed.now) step pins.now }
{
    match circuit.two_back(step as usize) {
        None => [Value::X; 10],
        Some(earlier) => shown_pins(circuit, replayed, earlier as u32, pins),
    }
}

/// The values that the replay shows at pins at a step, in the first places.
fn shown_pins(circuit: &Circuit<'_>, replayed: &History, step: u32, pins: &[Pin]) -> [Value; 10]
    requires places { HasPlaces (job_in circuit.now) replayed.now }
    requires step { step < (job_in circuit.now).moments * (job_in circuit.now).rounds }
    requires few { length pins.now ≤ 10 }
    requires nets { AllByRecursion (λ n. n < (job_in circuit.now).width) (net_pins pins.now) }
    ensures long { length result ≡ 10 }
    ensures values { take (length pins.now) result
        ≡ pins_at (job_in circuit.now) (shown_of (job_in circuit.now) replayed.now) step pins.now }
{
    let shown = Shown {
        circuit: *circuit,
        history: replayed,
    };
    pin_values(circuit, &shown, step as usize, pins)
}
