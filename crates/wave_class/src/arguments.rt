//! Argument places by their numbers, in place order and without doubles.

ghost use Rattle.std.specs.Prelude.{◌≡◌, ℕ, ◌+◌, ◌<◌, ◌≤◌, ◌^◌, List, [], ◌∷◌, ◌++◌, length, filter};
ghost use Rattle.std.specs.List.{AllByRecursion};
ghost use Rattle.design_cell.specs.declared.value.Value.{Value as AnyValue};
ghost use Rattle.design_cell.specs.Value.{is_unknown};
ghost use Rattle.design_circuit.specs.Circuit.{job_in};
ghost use Rattle.design_circuit.specs.Job.{places_of};
ghost use Rattle.law_model.specs.Assignment.{argument_places};
ghost use Rattle.law_model.specs.Places.{among, places_where};
ghost use Rattle.wave_class.specs.Arguments.{uncertain_places, IsLeastFrom, IsLeastWith};

use crate::ruled::ruled_arguments;
use design_circuit::{Circuit, Source};
use std::marker::Model;

/// At most 13 places by their numbers. Contracts see the list.
#[derive(Debug, Drop)]
pub struct ArgumentsByNumber {
    places: [usize; 13],
    len: usize,
}

impl Model for ArgumentsByNumber {
    ghost use Rattle.std.specs.Prelude.{List, ℕ, take, ◌≤◌};

    ghost Value = { List ℕ };

    ghost view = { λ arguments. take arguments.len arguments.places };

    ghost invariant = { λ arguments. arguments.len ≤ 13 };
}

impl ArgumentsByNumber {
    /// No places.
    pub fn new() -> ArgumentsByNumber
        ensures { result ≡ [] }
    {
        ArgumentsByNumber {
            places: [0; 13],
            len: 0,
        }
    }

    /// Appends a place.
    pub fn push(&mut self, place: usize)
        requires { length self.old < 13 }
        ensures { self.new ≡ self.old ++ place ∷ [] }
    {
        self.places[self.len] = place;
        self.len += 1;
    }

    /// The places.
    pub fn as_slice(&self) -> &[usize]
        ensures places { result.now ≡ self.now }
        ensures few { length result.now ≤ 13 }
    {
        &self.places[..self.len]
    }
}

/// The argument places of a place, in place order and without doubles: those before it whose bits its rule reads.
pub fn argument_places<C: Source>(
    circuit: &Circuit<'_>,
    certain: &C,
    place: usize,
) -> ArgumentsByNumber
    requires within { place < places_of (job_in circuit.now) }
    requires certain { (k : ℕ) → k < place → C.has certain.now k }
    ensures { result ≡ argument_places (job_in circuit.now) (C.reads certain.now) place }
{
    ascending(ruled_arguments(circuit, certain, place).as_slice())
}

/// Those of them that aren't certain.
pub fn uncertain_places<C: Source>(
    circuit: &Circuit<'_>,
    certain: &C,
    place: usize,
) -> ArgumentsByNumber
    requires within { place < places_of (job_in circuit.now) }
    requires certain { (k : ℕ) → k < place → C.has certain.now k }
    ensures { result ≡ uncertain_places (job_in circuit.now) (C.reads certain.now) place }
{
    let ruled = ruled_arguments(circuit, certain, place);
    let uncertain = uncertain_of(certain, ruled.as_slice());
    ascending(uncertain.as_slice())
}

/// The places that aren't certain.
fn uncertain_of<C: Source>(certain: &C, places: &[usize]) -> ArgumentsByNumber
    requires certain { AllByRecursion (C.has certain.now) places.now }
    requires few { length places.now ≤ 13 }
    ensures { result ≡ filter (λ k. is_unknown (C.reads certain.now k)) places.now }
{
    let mut uncertain = ArgumentsByNumber::new();
    'places: for place in places {
        if !certain.value(*place).is_known() {
            uncertain.push(*place);
        }
    }
    uncertain
}

/// The places in place order and without doubles.
fn ascending(places: &[usize]) -> ArgumentsByNumber
    requires few { length places.now ≤ 13 }
    requires small { AllByRecursion (λ k. k < 2 ^ 40) places.now }
    ensures { (n : ℕ) → AllByRecursion (λ k. k < n) places.now → result ≡ places_where (among places.now) n }
{
    let mut rising = ArgumentsByNumber::new();
    let mut bound = 0;
    'rest: while let Some(least) = least_from(places, bound) {
        rising.push(least);
        bound = least + 1;
    }
    rising
}

/// The least of the places that isn't below a bound.
fn least_from(places: &[usize], bound: usize) -> Option<usize>
    ensures { IsLeastFrom places.now bound result }
{
    let mut least = None;
    'places: for place in places {
        least = lesser(least, *place, bound);
    }
    least
}

/// What is found of the places so far, and then of one more.
fn lesser(found: Option<usize>, place: usize, bound: usize) -> Option<usize>
    ensures { IsLeastWith place bound found result }
{
    if place < bound {
        return found;
    }
    match found {
        None => Some(place),
        Some(least) => if least < place {
            Some(least)
        } else {
            Some(place)
        },
    }
}
