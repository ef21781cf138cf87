//! The class of a place, by trying assignments.

ghost use Rattle.std.specs.Prelude.{◌≡◌, ◌<◌, Contains};
ghost use Rattle.std.specs.List.{AllByRecursion};
ghost use Rattle.design_cell.specs.declared.value.Value.{Value as AnyValue};
ghost use Rattle.design_circuit.specs.Circuit.{job_in};
ghost use Rattle.design_circuit.specs.Rule.{arguments};
ghost use Rattle.law_model.specs.Class.{is_carrier};
ghost use Rattle.wave_class.specs.Arguments.{uncertain_places};
ghost use Rattle.wave_class.specs.Ends as spec;
ghost use Rattle.wave_class.specs.Ends.{AreEnds};
ghost use Rattle.wave_class.specs.Keeps.{class_here, copy_or_line, later_class};

use crate::arguments::uncertain_places;
use crate::asked::{Asked, Uncertain};
use crate::earlier::Earlier;
use crate::ends::{Ends, ends_of};
use crate::every::passes_every;
use crate::keeps::{passes_on, place_before};
use crate::quick::{plain_class, settled_class};
use crate::ruled::ruled_arguments;
use crate::test::Test;
use law_model::ClassByNumber;

/// The class of a place, by what its rule gives.
pub fn tried_class<E: Earlier>(asked: &Asked<'_, E>) -> ClassByNumber
    ensures { result ≡ class_here (job_in asked.now.circuit.now) (E.reads asked.now.earlier.now) asked.now.place }
{
    let found = uncertain_places(asked.circuit, asked.earlier, asked.place);
    let places = found.as_slice();
    if places.is_empty() {
        settled_class(asked)
    } else {
        first_class(&Uncertain { asked, places })
    }
}

fn first_class<E: Earlier>(uncertain: &Uncertain<'_, E>) -> ClassByNumber
    ensures { let asked = uncertain.now.asked.now in
        result ≡ class_here (job_in asked.circuit.now) (E.reads asked.earlier.now) asked.place }
{
    let ends = ends_of(uncertain);
    if ends.are_mixed() {
        later_class(uncertain, ends)
    } else if passes_every(uncertain, ends.test()) {
        plain_class(ends.first)
    } else {
        later_class(uncertain, ends)
    }
}

/// The class of a place that is neither local nor free.
fn later_class<E: Earlier>(uncertain: &Uncertain<'_, E>, ends: Ends) -> ClassByNumber
    requires ends { let asked = uncertain.now.asked.now in
        AreEnds (job_in asked.circuit.now) (E.reads asked.earlier.now) asked.place uncertain.now.places.now ends }
    ensures { let asked = uncertain.now.asked.now in
        result ≡ later_class (job_in asked.circuit.now) (E.reads asked.earlier.now) asked.place }
{
    if passes_on(uncertain) {
        let asked = uncertain.asked;
        ClassByNumber::Carried(place_before(asked.circuit, asked.place), false)
    } else {
        carried_or_line(uncertain, ends)
    }
}

/// The first of its argument places that a place is carried from, if there is one.
fn carried_or_line<E: Earlier>(uncertain: &Uncertain<'_, E>, ends: Ends) -> ClassByNumber
    requires ends { let asked = uncertain.now.asked.now in
        AreEnds (job_in asked.circuit.now) (E.reads asked.earlier.now) asked.place uncertain.now.places.now ends }
    ensures { let asked = uncertain.now.asked.now in
        result ≡ copy_or_line (job_in asked.circuit.now) (E.reads asked.earlier.now) asked.place }
{
    match ends.inverted() {
        Some(inverted) => copied_or_line(uncertain, inverted),
        None => ClassByNumber::Line,
    }
}

/// The first of its argument places that a place is carried from, inverted or not as is told.
fn copied_or_line<E: Earlier>(uncertain: &Uncertain<'_, E>, inverted: bool) -> ClassByNumber
    ensures { let asked = uncertain.now.asked.now in
        let j = job_in asked.circuit.now in
        let reads = E.reads asked.earlier.now in
        result ≡ spec.copied_or_line j reads asked.place inverted (arguments j reads asked.place) }
{
    let asked = uncertain.asked;
    let ruled = ruled_arguments(asked.circuit, asked.earlier, asked.place);
    'rest: for from in ruled.as_slice() {
        if is_carrier(uncertain, *from, inverted) {
            return ClassByNumber::Carried(*from, inverted);
        }
    }
    ClassByNumber::Line
}

/// Whether a place is carried from one of its argument places, as it is or inverted.
fn is_carrier<E: Earlier>(uncertain: &Uncertain<'_, E>, from: usize, inverted: bool) -> bool
    requires from { let asked = uncertain.now.asked.now in
        Contains (arguments (job_in asked.circuit.now) (E.reads asked.earlier.now) asked.place) from }
    ensures { let asked = uncertain.now.asked.now in
        result ≡ is_carrier (job_in asked.circuit.now) (E.reads asked.earlier.now) asked.place from inverted }
{
    if uncertain.asked.earlier.value(from).is_known() {
        return false;
    }
    passes_every(uncertain, Test::Copies(from, inverted))
}
