//! Argument places.

ghost use Rattle.std.specs.Prelude.{◌≡◌, ◌<◌, ◌≤◌, [], ◌∷◌, ◌++◌, length, map};
ghost use Rattle.std.specs.List.{AllByRecursion};
ghost use Rattle.design_circuit.specs.Circuit.{job_in};
ghost use Rattle.design_circuit.specs.Fits.{place_at};
ghost use Rattle.design_circuit.specs.Job.{places_of};

use design_circuit::{Circuit, Place};
use std::marker::Model;

/// At most 13 places. Contracts see the list.
#[derive(Debug, Drop)]
pub struct Arguments {
    places: [Place; 13],
    len: usize,
}

impl Model for Arguments {
    ghost use Rattle.std.specs.Prelude.{List, take, ◌≤◌};
    ghost use Rattle.design_circuit.specs.declared.place.Place.{Place as APlace};

    ghost Value = { List APlace };

    ghost view = { λ arguments. take arguments.len arguments.places };

    ghost invariant = { λ arguments. arguments.len ≤ 13 };
}

impl Arguments {
    fn new() -> Arguments
        ensures { result ≡ [] }
    {
        Arguments {
            places: [Place { step: 0, net: 0 }; 13],
            len: 0,
        }
    }

    fn push(&mut self, place: Place)
        requires { length self.old < 13 }
        ensures { self.new ≡ self.old ++ place ∷ [] }
    {
        self.places[self.len] = place;
        self.len += 1;
    }

    /// The places.
    pub fn as_slice(&self) -> &[Place]
        ensures places { result.now ≡ self.now }
        ensures few { length result.now ≤ 13 }
    {
        &self.places[..self.len]
    }
}

/// The places of numbers.
pub(crate) fn places_of_numbers(circuit: &Circuit<'_>, numbers: &[usize]) -> Arguments
    requires few { length numbers.now ≤ 13 }
    requires within { AllByRecursion (λ k. k < places_of (job_in circuit.now)) numbers.now }
    ensures { result ≡ map (place_at (job_in circuit.now)) numbers.now }
{
    let mut arguments = Arguments::new();
    'numbers: for number in numbers {
        arguments.push(circuit.place_of(*number));
    }
    arguments
}
