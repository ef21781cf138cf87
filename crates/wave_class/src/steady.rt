//! The class of a place whose arguments are as they were a step before: that of its net's place there.

ghost use Rattle.std.specs.Prelude.{◌≡◌, ◌-◌, ◌<◌, ◌≤◌, ◌&&◌, not, true};
ghost use Rattle.std.specs.Bool.{OnTrue};
ghost use Rattle.std.specs.List.{AllByRecursion};
ghost use Rattle.design_cell.specs.declared.value.Value.{Value as AnyValue};
ghost use Rattle.design_circuit.specs.Circuit.{job_in};
ghost use Rattle.design_circuit.specs.Order.{net_pins};
ghost use Rattle.design_wiring.specs.declared.wiring.Kind.TheVariants as kind;
ghost use Rattle.wave_class.specs.Facts.{AllKeep, is_open as is_told_open};
ghost use Rattle.wave_class.specs.Keeps.{cell_chooses as chooses, class_here};
ghost use Rattle.wave_class.specs.Wires.{PlaceSeesTheSame, Reaches, Stands, StandsCell, positions_keep};

use crate::asked::Asked;
use crate::earlier::Earlier;
use crate::keeps::cell_chooses;
use crate::moved::{moved_cell, moved_register};
use crate::quick::plain_class;
use design_cell::Value;
use design_circuit::{Pin, Source, Table, width_of};
use law_model::ClassByNumber;

/// The class of a cell's place. Where its pins keep it gives at the step before what it gives here; so they do where
/// all places before it in its step keep.
pub fn cell_class<E: Earlier>(
    asked: &Asked<'_, E>,
    table: Table,
    pins: &[Pin],
    all_keep: bool,
) -> ClassByNumber
    requires stands { StandsCell (job_in asked.now.circuit.now) asked.now.place table pins.now }
    requires keep { let asked = asked.now in
        OnTrue all_keep (AllKeep (E.facts asked.earlier.now) (asked.place - asked.position) asked.place) }
    ensures { result ≡ class_here (job_in asked.now.circuit.now) (E.reads asked.now.earlier.now) asked.now.place }
{
    let width = width_of(asked.circuit);
    if asked.place < width {
        return moved_cell(asked, table, pins);
    }
    let earlier = asked.earlier;
    if !pins_keep(earlier, asked.place - asked.position, pins, all_keep) {
        return moved_cell(asked, table, pins);
    }
    let back = asked.place - width;
    if earlier.is_plain(back) {
        plain_class(earlier.value(back))
    } else if earlier.is_carried_on(back) {
        ClassByNumber::Carried(back, false)
    } else if is_passed_line(earlier, back, table, pins) {
        ClassByNumber::Carried(back, false)
    } else {
        moved_cell(asked, table, pins)
    }
}

/// Whether a cell's place is told to be Line, and the cell reads no filling.
fn is_passed_line<E: Earlier>(earlier: &E, place: usize, table: Table, pins: &[Pin]) -> bool
    requires { E.has earlier.now place }
    ensures { result ≡ ((E.facts earlier.now place).line && not (chooses table pins.now)) }
{
    earlier.is_line(place) && !cell_chooses(table, pins)
}

/// Whether the nets of a cell's pins all keep at its step, where that may be known already.
fn pins_keep<E: Earlier>(earlier: &E, first: usize, pins: &[Pin], all_keep: bool) -> bool
    requires reach { AllByRecursion (Reaches (E.has earlier.now) first) (net_pins pins.now) }
    requires keep { OnTrue all_keep (positions_keep (E.facts earlier.now) first pins.now ≡ true) }
    ensures { result ≡ positions_keep (E.facts earlier.now) first pins.now }
{
    all_keep || positions_keep(earlier, first, pins)
}

/// The class of a register's place. Where it sees the step before what it sees here, it does the same.
pub fn register_class<E: Earlier>(asked: &Asked<'_, E>, pins: &[Pin]) -> ClassByNumber
    requires stands { Stands (job_in asked.now.circuit.now) asked.now.place kind.Register pins.now }
    ensures { result ≡ class_here (job_in asked.now.circuit.now) (E.reads asked.now.earlier.now) asked.now.place }
{
    if !sees_the_same(asked, pins) {
        return moved_register(asked, pins);
    }
    let earlier = asked.earlier;
    let back = asked.place - width_of(asked.circuit);
    if earlier.is_plain(back) {
        plain_class(earlier.value(back))
    } else if is_open(earlier, back) {
        ClassByNumber::Carried(back, false)
    } else {
        moved_register(asked, pins)
    }
}

/// Whether a place is told to be neither Local nor Free.
fn is_open<E: Earlier>(earlier: &E, place: usize) -> bool
    requires { E.has earlier.now place }
    ensures { result ≡ is_told_open (E.facts earlier.now place) }
{
    earlier.is_carried_on(place) || earlier.is_line(place)
}

/// Whether a register looks back at what it looked back at a step before.
fn sees_the_same<E: Earlier>(asked: &Asked<'_, E>, pins: &[Pin]) -> bool
    requires stands { Stands (job_in asked.now.circuit.now) asked.now.place kind.Register pins.now }
    ensures later { OnTrue result ((job_in asked.now.circuit.now).width ≤ asked.now.place) }
    ensures same { let asked = asked.now in
        OnTrue result (PlaceSeesTheSame (job_in asked.circuit.now) (E.reads asked.earlier.now) asked.place) }
{
    let width = width_of(asked.circuit);
    let earlier = asked.earlier;
    let first = asked.place - asked.position;
    if first < 3 * width {
        return false;
    }
    let here = earlier.value(asked.place - width);
    let before = earlier.value(asked.place - width - width);
    if !is_same(here, before) {
        return false;
    }
    positions_keep(earlier, first - width, pins)
        && positions_keep(earlier, first - width - width, pins)
}

fn is_same(x: Value, y: Value) -> bool
    ensures { OnTrue result (x ≡ y) }
{
    x == y
}

/// Whether the nets of pins, named by their positions, all keep at the step whose first place has a number.
fn positions_keep<E: Earlier>(earlier: &E, first: usize, pins: &[Pin]) -> bool
    requires { AllByRecursion (Reaches (E.has earlier.now) first) (net_pins pins.now) }
    ensures { result ≡ positions_keep (E.facts earlier.now) first pins.now }
{
    match pins {
        [] => true,
        [Pin::Net(position), rest @ ..] => earlier.keeps(first + *position as usize)
            && positions_keep(earlier, first, rest),
        [_, rest @ ..] => positions_keep(earlier, first, rest),
    }
}
