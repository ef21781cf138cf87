//! The class of a place that needs no trying: of a copy, whose argument says all, of an input that the recording knows,
//! and of a place whose arguments are all certain.

ghost use Rattle.std.specs.Prelude.{◌≡◌, ◌<◌, []};
ghost use Rattle.design_cell.specs.declared.value.Value.{Value as AnyValue};
ghost use Rattle.design_circuit.specs.Circuit.{job_in};
ghost use Rattle.design_circuit.specs.Job.{net_of};
ghost use Rattle.design_circuit.specs.declared.design.Driver.TheVariants.{Input};
ghost use Rattle.design_wiring.specs.declared.wiring.Kind.TheVariants as kind;
ghost use Rattle.wave_class.specs.Arguments.{uncertain_places};
ghost use Rattle.wave_class.specs.Facts as spec;
ghost use Rattle.wave_class.specs.Keeps.{class_here};
ghost use Rattle.wave_class.specs.Wires.{CopiesFrom, Stands};

use crate::asked::Asked;
use crate::assigned::{Assigned, Numbered};
use crate::earlier::Earlier;
use crate::keeps::place_before;
use crate::tried::tried_class;
use design_cell::Value;
use design_circuit::{Pin, recorded_at, rule_value, spot_of};
use law_model::ClassByNumber;

/// The class of a copy.
pub fn copied_class<E: Earlier>(asked: &Asked<'_, E>, pins: &[Pin]) -> ClassByNumber
    requires stands { Stands (job_in asked.now.circuit.now) asked.now.place kind.Copy pins.now }
    ensures { result ≡ class_here (job_in asked.now.circuit.now) (E.reads asked.now.earlier.now) asked.now.place }
{
    match pins {
        [Pin::Net(other), ..] => class_from(asked, asked.place - asked.position + *other as usize),
        _ => unreachable!(),
    }
}

/// The class of a copy, by the place that it reads.
fn class_from<E: Earlier>(asked: &Asked<'_, E>, from: usize) -> ClassByNumber
    requires copies { CopiesFrom (job_in asked.now.circuit.now) asked.now.place from }
    ensures { result ≡ class_here (job_in asked.now.circuit.now) (E.reads asked.now.earlier.now) asked.now.place }
{
    match asked.earlier.value(from) {
        Value::Zero => ClassByNumber::Local(false),
        Value::One => ClassByNumber::Local(true),
        _ => if asked.earlier.keeps(from) {
            ClassByNumber::Carried(place_before(asked.circuit, asked.place), false)
        } else {
            ClassByNumber::Carried(from, false)
        },
    }
}

/// The class of an input's place: where the recording knows its value it has that bit.
pub fn input_class<E: Earlier>(asked: &Asked<'_, E>) -> ClassByNumber
    requires driver { let j = job_in asked.now.circuit.now in j.driver (net_of j asked.now.place) ≡ Input }
    ensures { result ≡ class_here (job_in asked.now.circuit.now) (E.reads asked.now.earlier.now) asked.now.place }
{
    let spot = spot_of(asked.circuit, asked.place);
    match recorded_at(asked.circuit, spot.step, spot.net) {
        Value::Zero => ClassByNumber::Local(false),
        Value::One => ClassByNumber::Local(true),
        _ => tried_class(asked),
    }
}

/// The class of a place all of whose arguments are certain: there is one assignment.
pub fn settled_class<E: Earlier>(asked: &Asked<'_, E>) -> ClassByNumber
    requires settled { let asked = asked.now in
        uncertain_places (job_in asked.circuit.now) (E.reads asked.earlier.now) asked.place ≡ [] }
    ensures { result ≡ class_here (job_in asked.now.circuit.now) (E.reads asked.now.earlier.now) asked.now.place }
{
    let bits = Assigned {
        certain: asked.earlier,
        chosen: Numbered {
            places: &[],
            number: 0,
        },
    };
    plain_class(rule_value(asked.circuit, asked.earlier, &bits, asked.place))
}

/// The class of a place that is local or free, by its certain value or by what its rule gives.
pub fn plain_class(value: Value) -> ClassByNumber
    ensures { result ≡ spec.plain_class value }
{
    match value {
        Value::Zero => ClassByNumber::Local(false),
        Value::One => ClassByNumber::Local(true),
        Value::X => ClassByNumber::Free,
        Value::Z => ClassByNumber::Free,
    }
}
