//! The class of a place.

ghost use Rattle.std.specs.Prelude.{◌≡◌, ◌+◌, ◌-◌, ◌%◌, ◌<◌};
ghost use Rattle.std.specs.Bool.{OnTrue};
ghost use Rattle.design_circuit.specs.Circuit.{job_in};
ghost use Rattle.design_circuit.specs.Job.{places_of};
ghost use Rattle.law_model.specs.Class.{class_of};
ghost use Rattle.wave_class.specs.Facts.{AgreeBefore, AllKeep, AreFacts};
ghost use Rattle.wave_class.specs.Wires.{AreWiresOf};

use crate::asked::Asked;
use crate::earlier::Earlier;
use crate::keeps::place_before;
use crate::quick::{copied_class, input_class, plain_class};
use crate::steady::{cell_class, register_class};
use crate::tried::tried_class;
use design_circuit::{Circuit, Source, Table, width_of};
use design_wiring::{Kind, Wiring};
use law_model::ClassByNumber;

/// The class of a place, from what is known of the places before it: the first that applies. It is told whether all
/// places before it in its step keep, so that its pins needn't be looked at.
pub fn class_at<E: Earlier>(asked: &Asked<'_, E>, wiring: &Wiring, all_keep: bool) -> ClassByNumber
    requires wired { AreWiresOf asked.now.circuit.now wiring.now }
    requires keep { let asked = asked.now in
        OnTrue all_keep (AllKeep (E.facts asked.earlier.now) (asked.place - asked.position) asked.place) }
    ensures { result ≡ class_of (job_in asked.now.circuit.now) (E.reads asked.now.earlier.now) asked.now.place }
{
    let pins = wiring.pins(asked.position);
    match wiring.kind(asked.position) {
        Kind::Input => input_class(asked),
        Kind::Undriven => tried_class(asked),
        Kind::Constant(bit) => ClassByNumber::Local(bit),
        Kind::Copy => copied_class(asked, pins),
        Kind::Gate(gate) => cell_class(asked, Table::Gate(gate), pins, all_keep),
        Kind::Udp(number) => cell_class(asked, Table::Udp(number), pins, all_keep),
        Kind::Register => register_class(asked, pins),
    }
}

/// The class of a place of which facts are kept, as of those before it: found anew where they leave it open.
pub fn kept_class<E: Earlier>(
    circuit: &Circuit<'_>,
    wiring: &Wiring,
    earlier: &E,
    place: usize,
) -> ClassByNumber
    requires wired { AreWiresOf circuit.now wiring.now }
    requires within { place < places_of (job_in circuit.now) }
    requires known { place < E.count earlier.now }
    requires facts { AreFacts (job_in circuit.now) (E.reads earlier.now) (E.facts earlier.now) (place + 1) }
    requires agrees { AgreeBefore (job_in circuit.now) (E.reads earlier.now) (place + 1) }
    ensures { result ≡ class_of (job_in circuit.now) (E.reads earlier.now) place }
{
    if earlier.is_carried_on(place) {
        ClassByNumber::Carried(place_before(circuit, place), false)
    } else if earlier.is_plain(place) {
        plain_class(earlier.value(place))
    } else if earlier.is_line(place) {
        ClassByNumber::Line
    } else {
        let asked = Asked {
            circuit,
            earlier,
            place,
            position: place % width_of(circuit),
        };
        class_at(&asked, wiring, false)
    }
}
