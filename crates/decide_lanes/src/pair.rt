//! Pairs by lanes: two lanes that differ at the next place, and the fillings that they stand for, cut down to its
//! sources.

ghost use Rattle.std.specs.Prelude.{◌≡◌, ◌<◌, ◌++◌, ◌∷◌, [], IfOk, IfSome, IsNone, MatchOption, OnOk, filter, length};
ghost use Rattle.std.specs.Prelude.{map, if◌then◌else◌};
ghost use Rattle.std.specs.List.{AllByRecursion};
ghost use Rattle.design_circuit.specs.Circuit.{job_in};
ghost use Rattle.design_circuit.specs.Fits.{place_at};
ghost use Rattle.design_circuit.specs.Job.{places_of};
ghost use Rattle.wave_proved.specs.Token.{HasNext, PairHolds};
ghost use Rattle.decide_nodes.specs.Lanes.{HasLanes, IsOne};
ghost use Rattle.decide_lane_nodes.specs.Given.{lane_given};
ghost use Rattle.decide_lane_nodes.specs.InWave.{bit_in_lane};
ghost use Rattle.decide_lane_nodes.specs.Made.{AreSourcesIn};
ghost use Rattle.decide_lanes.specs.Lanes.{IsNextNode};
ghost use Rattle.decide_lanes.specs.Pairs.{AreTwo, HasNoPair, IsOther, IsSame, ListsJust, bit_under, lane_filling};

use crate::counts::Counts;
use base_lists::{Items, Memory};
use decide_lane_nodes::{Nodes, given};
use decide_nodes::LaneBits;
use design_circuit::{Circuit, Filling, Place};
use law_model::Body;
use std::alloc::Global;
use wave_proved::{Verdict, Wave};

/// The lane of the empty filling.
pub const EMPTY: u32 = 192;

/// The verdict of the next place, where two lanes differ there and its sources are kept.
pub fn pair_of(
    alloc: Global,
    wave: &Wave<'_>,
    nodes: &Nodes,
    node: usize,
) -> Result<Option<Verdict>, Memory>
    requires { IsNextNode wave.now nodes.now (length wave.now.written) node }
    ensures holds { IfOk result (λ found. IfSome found (PairHolds wave.now)) }
    ensures none { IfOk result (λ found. IsNone found
        → HasNoPair nodes.now node) }
{
    match nodes.sources(node) {
        None => Ok(None),
        Some(list) => {
            let lane_bits = nodes.lane_bits(node);
            pair_over(alloc, wave, list, lane_bits)
        }
    }
}

fn pair_over(
    alloc: Global,
    wave: &Wave<'_>,
    list: &[u32],
    lane_bits: LaneBits,
) -> Result<Option<Verdict>, Memory>
    requires within { HasNext wave.now }
    requires sources { AreSourcesIn wave.now (length wave.now.written) list.now }
    requires bits { HasLanes lane_bits (bit_in_lane wave.now (length wave.now.written)) }
    ensures holds { IfOk result (λ found. IfSome found (PairHolds wave.now)) }
    ensures none { IfOk result (λ found. IsNone found → IsSame lane_bits) }
{
    let circuit = wave.circuit();
    match sparse_lane(&circuit, list, lane_bits) {
        None => Ok(None),
        Some(lane) => {
            let other = Items::from_vec(ones(alloc, &circuit, list, lane)?);
            let empty = Items::from_vec(Vec::new(alloc));
            if lane_bits.in_lane(EMPTY) {
                Ok(Some(Verdict::from_law(wave, Body::Pair(other, empty))))
            } else {
                Ok(Some(Verdict::from_law(wave, Body::Pair(empty, other))))
            }
        }
    }
}

/// What the filling of a lane lists of the sources of the next place, where they are kept.
pub fn filling_of(
    alloc: Global,
    wave: &Wave<'_>,
    nodes: &Nodes,
    node: usize,
    lane: u32,
) -> Result<Option<Filling>, Memory>
    requires node { IsNextNode wave.now nodes.now (length wave.now.written) node }
    requires lane { lane < 256 }
    ensures { IfOk result (λ found. IfSome found (λ filling. filling ≡ lane_filling wave.now lane)) }
{
    match nodes.sources(node) {
        None => Ok(None),
        Some(list) => {
            let places = ones(alloc, &wave.circuit(), list, lane)?;
            Ok(Some(Items::from_vec(places)))
        }
    }
}

/// The bit of the next place in the world of a filling, where its sources are kept and the filling lists of them what
/// that of a lane does, and no other place.
pub fn bit_of(
    alloc: Global,
    wave: &Wave<'_>,
    nodes: &Nodes,
    node: usize,
    filling: &[Place],
) -> Result<Option<bool>, Memory>
    requires { IsNextNode wave.now nodes.now (length wave.now.written) node }
    ensures { IfOk result (λ found. IfSome found (λ bit. bit ≡ bit_under wave.now filling.now)) }
{
    match nodes.sources(node) {
        None => Ok(None),
        Some(list) => match lane_that_lists(alloc, &wave.circuit(), list, filling)? {
            None => Ok(None),
            Some(lane) => Ok(Some(nodes.lane_bits(node).in_lane(lane))),
        },
    }
}

/// A lane whose filling lists just these places of some, if it is found.
fn lane_that_lists(
    alloc: Global,
    circuit: &Circuit<'_>,
    list: &[u32],
    filling: &[Place],
) -> Result<Option<u32>, Memory>
    requires within { AllByRecursion (λ k. k < places_of (job_in circuit.now)) list.now }
    ensures { IfOk result (λ found. IfSome found (ListsJust (job_in circuit.now) list.now filling.now)) }
{
    match filling {
        [] => Ok(Some(EMPTY)),
        [..] => match lanes_just(circuit, list, filling).first() {
            None => Ok(None),
            Some(lane) => lane_if(alloc, circuit, list, filling, lane),
        },
    }
}

/// This lane, if its filling lists just these places of some.
fn lane_if(
    alloc: Global,
    circuit: &Circuit<'_>,
    list: &[u32],
    filling: &[Place],
    lane: u32,
) -> Result<Option<u32>, Memory>
    requires within { AllByRecursion (λ k. k < places_of (job_in circuit.now)) list.now }
    requires lane { lane < 256 }
    ensures { IfOk result (λ found. IfSome found (ListsJust (job_in circuit.now) list.now filling.now)) }
{
    let places = ones(alloc, circuit, list, lane)?;
    if places.as_slice() == filling {
        Ok(Some(lane))
    } else {
        Ok(None)
    }
}

/// The lanes whose fillings list just these places of some. No contract says so: what is found among them is looked at.
fn lanes_just(circuit: &Circuit<'_>, list: &[u32], filling: &[Place]) -> LaneBits
    requires within { AllByRecursion (λ k. k < places_of (job_in circuit.now)) list.now }
{
    let mut lanes = LaneBits::zeros().turned(true);
    let mut next = 0;
    'places: for index in 0..list.len() {
        let place = circuit.place_of(list[index] as usize);
        let is_listed = next < filling.len() && filling[next] == place;
        lanes = lanes.and(given(place).turned(!is_listed));
        if is_listed {
            next += 1;
        }
    }
    lanes
}

/// Those of some places that the filling of a lane lists.
fn ones(alloc: Global, circuit: &Circuit<'_>, list: &[u32], lane: u32) -> Result<Vec<Place>, Memory>
    requires within { AllByRecursion (λ k. k < places_of (job_in circuit.now)) list.now }
    requires lane { lane < 256 }
    ensures { let j = job_in circuit.now in
        IfOk result (λ places. places.items ≡ map (place_at j) (filter (lane_given j lane) list.now)) }
{
    let mut places = Vec::new(alloc);
    'places: for index in 0..list.len() {
        let place = circuit.place_of(list[index] as usize);
        add_if(&mut places, place, given(place).in_lane(lane))?;
    }
    Ok(places)
}

fn add_if(places: &mut Vec<Place>, place: Place, is_listed: bool) -> Result<(), Memory>
    ensures { OnOk result (places.new.items ≡ places.old.items ++ (if is_listed then place ∷ [] else [])) }
{
    if is_listed {
        places.push(place)?;
    }
    Ok(())
}

/// Two lanes in which there are 0 and 1.
pub fn lanes_of(lane_bits: LaneBits) -> Option<(u32, u32)>
    ensures { MatchOption result (IsSame lane_bits) (AreTwo lane_bits) }
{
    match other_lane(lane_bits) {
        None => None,
        Some(lane) => {
            if lane_bits.in_lane(EMPTY) {
                Some((lane, EMPTY))
            } else {
                Some((EMPTY, lane))
            }
        }
    }
}

/// A lane in which there is another bit than in that of the empty filling.
fn other_lane(lane_bits: LaneBits) -> Option<u32>
    ensures { MatchOption result (IsSame lane_bits) (IsOther lane_bits) }
{
    lane_bits.turned(lane_bits.in_lane(EMPTY)).first()
}

/// Such a lane, one whose filling lists the fewest of some places.
fn sparse_lane(circuit: &Circuit<'_>, list: &[u32], lane_bits: LaneBits) -> Option<u32>
    requires within { AllByRecursion (λ k. k < places_of (job_in circuit.now)) list.now }
    ensures { MatchOption result (IsSame lane_bits) (IsOther lane_bits) }
{
    let differs = lane_bits.turned(lane_bits.in_lane(EMPTY));
    match differs.first() {
        None => None,
        Some(lane) => Some(least_lane(circuit, list, differs, lane)),
    }
}

/// Of some lanes, of which there is one, one whose filling lists the fewest of some places.
fn least_lane(circuit: &Circuit<'_>, list: &[u32], lanes: LaneBits, some: u32) -> u32
    requires within { AllByRecursion (λ k. k < places_of (job_in circuit.now)) list.now }
    requires some { IsOne lanes some }
    ensures { IsOne lanes result }
{
    let mut counts = Counts::new();
    'places: for index in 0..list.len() {
        counts.add(given(circuit.place_of(list[index] as usize)));
    }
    match counts.least(lanes).first() {
        Some(lane) => lane,
        None => some,
    }
}
