//! The boundary of a cone: the places that the rules of its places read and that aren't in it, certain or not.

ghost use Rattle.std.specs.Prelude.{◌≡◌, ℕ, ◌<◌, ◌≤◌, [], ◌∷◌, length, map, reverse, slice_index, filter, IfOk, OnOk};
ghost use Rattle.std.specs.Prelude.{if◌then◌else◌};
ghost use Rattle.std.specs.List.{AllByRecursion};
ghost use Rattle.std.specs.List.Sorted.{IsStrictlyIncreasing};
ghost use Rattle.design_circuit.specs.Circuit.{job_in};
ghost use Rattle.design_circuit.specs.Filling.{IsPlace};
ghost use Rattle.design_circuit.specs.Fits.{place_at};
ghost use Rattle.design_circuit.specs.Job.{places_of};
ghost use Rattle.law_model.specs.Places.{among};
ghost use Rattle.decide_graph.specs.Reached.{AddsAll, AreTaken};
ghost use Rattle.decide_cone.specs.Boundary.{IsBoundary, IsCertainBoundary, IsFallingBoundary, IsPlaceIn, IsSomeCone};
ghost use Rattle.decide_cone.specs.Boundary.{is_certain_in, is_outside, number_in, read_in};
ghost use Rattle.decide_graph.specs.InWave.{IsInReach};

use base_lists::Memory;
use decide_graph::Reached;
use decide_nodes::{Cone, Node, NodeBody};
use design_circuit::{Circuit, Place, Source};
use std::alloc::Global;
use wave_class::argument_places;
use wave_proved::Wave;

/// The boundary places of a cone, in place order: the argument places of those of its places that aren't carried, which
/// aren't in the cone. Takes 8 bytes for each place of the cone, and for each that they read.
pub fn boundary(alloc: Global, wave: &Wave<'_>, cone: &Cone) -> Result<Vec<Place>, Memory>
    requires { IsSomeCone wave.now cone.now.nodes }
    ensures { IfOk result (λ places. IsBoundary wave.now cone.now.nodes places.items) }
{
    let falling = falling_boundary(alloc, wave, cone)?;
    places_back(alloc, &wave.circuit(), falling)
}

/// The certain ones of the boundary places of a cone, in place order. Takes memory as `boundary` does.
pub fn certain_boundary(alloc: Global, wave: &Wave<'_>, cone: &Cone) -> Result<Vec<Place>, Memory>
    requires { IsSomeCone wave.now cone.now.nodes }
    ensures { IfOk result (λ places. IsCertainBoundary wave.now cone.now.nodes places.items) }
{
    let falling = falling_boundary(alloc, wave, cone)?;
    let certain = certain_of(alloc, wave, falling.as_slice())?;
    places_back(alloc, &wave.circuit(), certain)
}

/// The numbers of the boundary places, the greatest first.
pub fn falling_boundary(alloc: Global, wave: &Wave<'_>, cone: &Cone) -> Result<Vec<usize>, Memory>
    requires { IsSomeCone wave.now cone.now.nodes }
    ensures { IfOk result (λ numbers. IsFallingBoundary wave.now cone.now.nodes numbers.items) }
{
    let circuit = wave.circuit();
    let nodes = cone.nodes();
    let numbers = numbers_of(alloc, &circuit, nodes)?;
    let mut reached = Reached::new(alloc);
    'nodes: for position in 0..nodes.len() {
        add_read(
            wave,
            numbers.as_slice(),
            position,
            &nodes[position].body,
            &mut reached,
        )?;
    }
    taken_of(alloc, reached)
}

/// Those of some written places that are certain.
fn certain_of(alloc: Global, wave: &Wave<'_>, numbers: &[usize]) -> Result<Vec<usize>, Memory>
    requires { AllByRecursion (λ k. k < length wave.now.written) numbers.now }
    ensures { IfOk result (λ certain. certain.items ≡ filter (is_certain_in wave.now) numbers.now) }
{
    let mut certain = Vec::new(alloc);
    'numbers: for number in numbers {
        if is_certain(wave, *number) {
            certain.push(*number)?;
        }
    }
    Ok(certain)
}

fn is_certain(wave: &Wave<'_>, number: usize) -> bool
    requires { number < length wave.now.written }
    ensures { result ≡ is_certain_in wave.now number }
{
    Source::value(wave, number).is_known()
}

/// The numbers of the places of nodes.
pub fn numbers_of(
    alloc: Global,
    circuit: &Circuit<'_>,
    nodes: &[Node],
) -> Result<Vec<usize>, Memory>
    requires places { AllByRecursion (IsPlaceIn (job_in circuit.now)) nodes.now }
    ensures { IfOk result (λ numbers. numbers.items ≡ map (number_in (job_in circuit.now)) nodes.now) }
{
    let mut numbers = Vec::with_capacity(alloc, nodes.len())?;
    'nodes: for node in nodes {
        numbers.push(circuit.number_of(node.place))?;
    }
    Ok(numbers)
}

/// What a place reads that is outside of the cone comes in.
fn add_read(
    wave: &Wave<'_>,
    cone: &[usize],
    position: usize,
    body: &NodeBody,
    reached: &mut Reached,
) -> Result<(), Memory>
    requires within { position < length cone.now }
    requires reach { IsInReach wave.now (slice_index cone.now position) }
    requires rising { IsStrictlyIncreasing cone.now }
    ensures { OnOk result
        (AddsAll reached.old (read_in wave.now cone.now body.now (slice_index cone.now position)) reached.new) }
{
    match body {
        NodeBody::Carried { .. } => Ok(()),
        NodeBody::Rule { .. } => {
            let arguments = argument_places(&wave.circuit(), wave, cone[position]);
            add_outside(cone, arguments.as_slice(), reached)
        }
    }
}

/// Those of some places that are outside of the cone come in.
fn add_outside(cone: &[usize], places: &[usize], reached: &mut Reached) -> Result<(), Memory>
    requires { IsStrictlyIncreasing cone.now }
    ensures { OnOk result (AddsAll reached.old (filter (is_outside cone.now) places.now) reached.new) }
{
    'places: for place in places {
        if !is_among(cone, *place) {
            reached.insert(*place)?;
        }
    }
    Ok(())
}

/// Whether a place is among places that ascend.
pub fn is_among(places: &[usize], place: usize) -> bool
    requires { IsStrictlyIncreasing places.now }
    ensures { result ≡ among places.now place }
{
    match places.binary_search(&place) {
        Ok(_) => true,
        Err(_) => false,
    }
}

/// The places that are reached, the greatest first.
pub fn taken_of(alloc: Global, mut reached: Reached) -> Result<Vec<usize>, Memory>
    ensures { IfOk result (λ taken. AreTaken reached taken.items) }
{
    let mut taken = Vec::new(alloc);
    'rest: while let Some(place) = reached.take_greatest() {
        taken.push(place)?;
    }
    Ok(taken)
}

/// Places by their numbers, from behind.
fn places_back(
    alloc: Global,
    circuit: &Circuit<'_>,
    mut numbers: Vec<usize>,
) -> Result<Vec<Place>, Memory>
    requires within { AllByRecursion (λ k. k < places_of (job_in circuit.now)) numbers.items }
    ensures { IfOk result (λ places. places.items ≡ map (place_at (job_in circuit.now)) (reverse numbers.items)) }
{
    let mut places = Vec::with_capacity(alloc, numbers.len())?;
    'rest: while let Some(number) = numbers.pop() {
        places.push(circuit.place_of(number))?;
    }
    Ok(places)
}
