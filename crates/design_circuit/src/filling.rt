//! Whether places are a filling.

ghost use Rattle.std.specs.Prelude.{◌≡◌, ◌↔◌, IsTrue, map};
ghost use Rattle.std.specs.List.{AllByRecursion};
ghost use Rattle.std.specs.List.Sorted.{IsStrictlyIncreasing};
ghost use Rattle.design_circuit.specs.Circuit.{job_in};
ghost use Rattle.design_circuit.specs.Filling.{IsFilling, IsPlace};
ghost use Rattle.design_circuit.specs.Job.{number_of};

use crate::circuit::Circuit;
use crate::place::Place;

/// Whether places are those of the job, in place order and without doubles.
pub fn is_filling(circuit: &Circuit<'_>, places: &[Place]) -> bool
    ensures { IsTrue result ↔ IsFilling (job_in circuit.now) places.now }
{
    are_places(circuit, places) && ascend(circuit, places)
}

fn are_places(circuit: &Circuit<'_>, places: &[Place]) -> bool
    ensures { IsTrue result ↔ AllByRecursion (IsPlace (job_in circuit.now)) places.now }
{
    'places: for place in places {
        if !circuit.has_place(*place) {
            return false;
        }
    }
    true
}

/// Whether places of the job ascend.
fn ascend(circuit: &Circuit<'_>, places: &[Place]) -> bool
    requires places { AllByRecursion (IsPlace (job_in circuit.now)) places.now }
    ensures { IsTrue result ↔ IsStrictlyIncreasing (map (number_of (job_in circuit.now)) places.now) }
{
    'places: for index in 1..places.len() {
        if circuit.number_of(places[index]) <= circuit.number_of(places[index - 1]) {
            return false;
        }
    }
    true
}
