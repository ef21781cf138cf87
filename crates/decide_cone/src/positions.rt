//! What a place rests on, by the positions of places in a list that ascends.

ghost use Rattle.std.specs.Prelude.{◌≡◌, ℕ, ◌<◌, ◌≤◌, ◌^◌, true, length, map, slice_index, IfOk, OnOk};
ghost use Rattle.std.specs.List.{AllByRecursion};
ghost use Rattle.std.specs.List.Sorted.{IsStrictlyIncreasing};
ghost use Rattle.law_model.specs.Places.{among};
ghost use Rattle.decide_cone.specs.Placed.{IsPlaced};
ghost use Rattle.decide_graph.specs.Traced.{supports_in};

use crate::tracer::slot_of;
use base_lists::Memory;
use decide_graph::TracedBody;
use decide_nodes::{NodeBody, Positions, Values};
use std::alloc::Global;

/// How many nodes a cone has at most.
const MOST_NODES: usize = 134_217_728;

/// Whether places are few enough for the nodes of a cone.
pub fn check_few(count: usize) -> Result<(), Memory>
    ensures { OnOk result (count ≤ 2 ^ 27) }
{
    if count > MOST_NODES {
        return Err(Memory);
    }
    Ok(())
}

/// What a place rests on, where that is among some places. Each is looked for first where it is hinted that it stands.
pub fn place_body(
    alloc: Global,
    hints: &[u32],
    places: &[usize],
    body: &TracedBody,
) -> Result<NodeBody, Memory>
    requires rising { IsStrictlyIncreasing places.now }
    requires few { length places.now < 2 ^ 27 }
    requires all { AllByRecursion (λ k. among places.now k ≡ true) (supports_in body.now) }
    ensures { IfOk result (IsPlaced places.now body.now) }
{
    match body {
        TracedBody::Carried(from, inverted) => Ok(NodeBody::Carried {
            node: position_of(hints, places, *from),
            inverted: *inverted,
        }),
        TracedBody::Rule(arguments, values) => Ok(NodeBody::Rule {
            arguments: positions_of(hints, places, arguments.as_slice()),
            values: Values::from_slice(alloc, values.as_slice())?,
        }),
    }
}

/// Where some places stand in a list that ascends.
pub fn positions_of(hints: &[u32], places: &[usize], arguments: &[usize]) -> Positions
    requires rising { IsStrictlyIncreasing places.now }
    requires few { length places.now ≤ 2 ^ 27 }
    requires few_arguments { length arguments.now ≤ 13 }
    requires all { AllByRecursion (λ k. among places.now k ≡ true) arguments.now }
    ensures within { AllByRecursion (λ p. p < length places.now) result }
    ensures places { map (slice_index places.now) result ≡ arguments.now }
{
    let mut positions = Positions::new();
    'arguments: for argument in arguments {
        positions.push(position_of(hints, places, *argument));
    }
    positions
}

/// Where a place stands in a list that ascends.
pub fn position_of(hints: &[u32], places: &[usize], place: usize) -> u32
    requires rising { IsStrictlyIncreasing places.now }
    requires few { length places.now ≤ 2 ^ 27 }
    requires inside { among places.now place ≡ true }
    ensures within { result < length places.now }
    ensures place { slice_index places.now result ≡ place }
{
    let hint = hint_of(hints, place);
    if hint < places.len() && places[hint] == place {
        return hint as u32;
    }
    match places.binary_search(&place) {
        Ok(position) => position as u32,
        Err(_) => unreachable!(),
    }
}

fn hint_of(hints: &[u32], place: usize) -> usize {
    let slot = slot_of(place);
    if slot < hints.len() {
        hints[slot] as usize
    } else {
        0
    }
}
