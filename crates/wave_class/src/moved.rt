//! The class of a place some of whose arguments have moved. Where they are all certain there is one assignment, so that
//! nothing is tried: the class is what the driver makes of their values.

ghost use Rattle.std.specs.Prelude.{◌≡◌, ◌+◌, ◌<◌, ◌≤◌, ◌∷◌, [], length, take};
ghost use Rattle.std.specs.Bool.{OnTrue};
ghost use Rattle.std.specs.List.{AllByRecursion};
ghost use Rattle.design_cell.specs.declared.value.Value.{Value as AnyValue};
ghost use Rattle.design_circuit.specs.Circuit.{job_in};
ghost use Rattle.design_circuit.specs.Order.{net_pins};
ghost use Rattle.design_circuit.specs.Register.{pin_of};
ghost use Rattle.design_wiring.specs.declared.wiring.Kind.TheVariants as kind;
ghost use Rattle.wave_class.specs.Keeps.{class_here};
ghost use Rattle.wave_class.specs.Wires as spec;
ghost use Rattle.wave_class.specs.Wires.{PlaceSeesKnown, Reaches, Stands, StandsCell};

use crate::asked::Asked;
use crate::earlier::Earlier;
use crate::quick::plain_class;
use crate::tried::tried_class;
use design_cell::Value;
use design_circuit::{
    Circuit, Driver, Pin, Source, Table, driver_at, remade_value, spot_of, table_value, width_of,
};
use law_model::ClassByNumber;

/// The class of a cell's place.
pub fn moved_cell<E: Earlier>(asked: &Asked<'_, E>, table: Table, pins: &[Pin]) -> ClassByNumber
    requires stands { StandsCell (job_in asked.now.circuit.now) asked.now.place table pins.now }
    ensures { result ≡ class_here (job_in asked.now.circuit.now) (E.reads asked.now.earlier.now) asked.now.place }
{
    let first = asked.place - asked.position;
    if positions_known(asked.earlier, first, pins) {
        let values = values_there(asked.earlier, first, pins);
        plain_class(table_value(asked.circuit, table, &values[..pins.len()]))
    } else {
        tried_class(asked)
    }
}

/// The class of a register's place.
pub fn moved_register<E: Earlier>(asked: &Asked<'_, E>, pins: &[Pin]) -> ClassByNumber
    requires stands { Stands (job_in asked.now.circuit.now) asked.now.place kind.Register pins.now }
    ensures { result ≡ class_here (job_in asked.now.circuit.now) (E.reads asked.now.earlier.now) asked.now.place }
{
    if !sees_known(asked, pins) {
        return tried_class(asked);
    }
    let circuit = asked.circuit;
    let kept = asked.earlier.value(asked.place - width_of(circuit));
    let spot = spot_of(circuit, asked.place);
    match driver_at(circuit, spot.net) {
        Driver::Register(latching) => {
            plain_class(remade_value(circuit, asked.earlier, kept, spot.step, latching))
        }
        _ => tried_class(asked),
    }
}

/// Whether a register sees certain values alone.
fn sees_known<E: Earlier>(asked: &Asked<'_, E>, pins: &[Pin]) -> bool
    requires stands { Stands (job_in asked.now.circuit.now) asked.now.place kind.Register pins.now }
    ensures later { OnTrue result ((job_in asked.now.circuit.now).width ≤ asked.now.place) }
    ensures known { let asked = asked.now in
        OnTrue result (PlaceSeesKnown (job_in asked.circuit.now) (E.reads asked.earlier.now) asked.place) }
{
    let width = width_of(asked.circuit);
    let first = asked.place - asked.position;
    if first < 3 * width {
        return false;
    }
    if !asked.earlier.value(asked.place - width).is_known() {
        return false;
    }
    positions_known(asked.earlier, first - width, pins)
        && positions_known(asked.earlier, first - width - width, pins)
}

/// Whether the nets of pins, named by their positions, are all certain at the step whose first place has a number.
fn positions_known<E: Earlier>(earlier: &E, first: usize, pins: &[Pin]) -> bool
    requires { AllByRecursion (Reaches (E.has earlier.now) first) (net_pins pins.now) }
    ensures { result ≡ spec.positions_known (E.reads earlier.now) first pins.now }
{
    match pins {
        [] => true,
        [Pin::Net(position), rest @ ..] => {
            earlier.value(first + *position as usize).is_known()
                && positions_known(earlier, first, rest)
        }
        [_, rest @ ..] => positions_known(earlier, first, rest),
    }
}

/// The values at pins there, in the first places.
fn values_there<E: Earlier>(earlier: &E, first: usize, pins: &[Pin]) -> [Value; 10]
    requires few { length pins.now ≤ 10 }
    requires reach { AllByRecursion (Reaches (E.has earlier.now) first) (net_pins pins.now) }
    ensures long { length result ≡ 10 }
    ensures values { take (length pins.now) result ≡ spec.values_there (E.reads earlier.now) first pins.now }
{
    let mut values = [Value::X; 10];
    'pins: for (index, pin) in pins.iter().enumerate() {
        values[index] = value_there(earlier, first, *pin);
    }
    values
}

fn value_there<E: Earlier>(earlier: &E, first: usize, pin: Pin) -> Value
    requires { AllByRecursion (Reaches (E.has earlier.now) first) (net_pins (pin ∷ [])) }
    ensures { result ≡ pin_of (λ position. E.reads earlier.now (first + position)) pin }
{
    match pin {
        Pin::Net(position) => earlier.value(first + position as usize),
        Pin::Bit(bit) => Value::from_bit(bit),
        Pin::Dead => Value::X,
    }
}
