//! Tables that all nodes share over one list of at most 16 sources, and what they show of the next place.

ghost use Rattle.std.specs.Prelude.{◌≡◌, ◌<◌, ◌≤◌, Some, IfOk, IfSome, OnOk, length, map};
ghost use Rattle.std.specs.Bool.{Decides};
ghost use Rattle.std.specs.List.{AllByRecursion};
ghost use Rattle.std.specs.List.Sorted.{IsStrictlyIncreasing};
ghost use Rattle.design_circuit.specs.Circuit.{job_in};
ghost use Rattle.design_circuit.specs.Fits.{place_at};
ghost use Rattle.design_circuit.specs.Job.{places_of};
ghost use Rattle.wave_proved.specs.Contents.{job, next_number};
ghost use Rattle.wave_proved.specs.Token.{HasNext, HoldsWithoutLog};
ghost use Rattle.decide_lane_nodes.specs.Made.{AreSourcesIn};
ghost use Rattle.decide_lanes.specs.Shown.{IsShownNext};
ghost use Rattle.decide_lanes.specs.Shared.{AreListable, ListsAll, IsListIn, IsNextIn, IsOtherNext, IsSharedIn};
ghost use Rattle.decide_lanes.specs.Shared.{IsSharedOf, IsSharedOfAny, KeepsShared};

use crate::shown::{Shown, settled_if_few};
use base_lists::{Items, Memory};
use decide_graph::Graph;
use decide_lane_nodes::union;
use decide_tables::{Compared, Other, SourceTables};
use design_circuit::{Circuit, Place};
use law_model::Body;
use std::alloc::Global;
use std::marker::Model;
use wave_proved::{Verdict, Wave};

/// How many sources the list has at most.
const MOST: usize = 16;

/// The list by the numbers of its places, and the tables over it.
#[derive(Drop)]
pub struct Shared {
    numbers: Vec<u32>,
    tables: SourceTables,
}

impl Model for Shared {
    ghost use Rattle.decide_lanes.specs.Shared.{SharedView};

    ghost Value = { SharedView };

    ghost view = { λ shared. record { numbers = shared.numbers.items; tables = shared.tables } };
}

impl Shared {
    /// No list, and no tables.
    pub fn new(alloc: Global) -> Shared
        ensures { IsSharedOfAny result }
    {
        Shared {
            numbers: Vec::new(alloc),
            tables: SourceTables::new(alloc),
        }
    }

    /// What tables show of the next place, which has these sources and this node of the graph; nothing where its
    /// sources aren't few.
    pub fn show(
        &mut self,
        alloc: Global,
        wave: &Wave<'_>,
        graph: &Option<Graph>,
        node: usize,
        sources: &[u32],
    ) -> Result<Shown, Memory>
        requires next { HasNext wave.now }
        requires right { IsSharedIn wave.now graph.now self.old }
        requires node { IfSome graph.now (IsNextIn wave.now node) }
        requires sources { AreSourcesIn wave.now (next_number wave.now) sources.now }
        ensures shown { IfOk result (IsShownNext wave.now) }
        ensures right { OnOk result (IsSharedIn wave.now graph.now self.new) }
    {
        if sources.len() > MOST {
            return Ok(Shown::Nothing);
        }
        match graph {
            None => Ok(Shown::Nothing),
            Some(graph) => {
                self.take_in(alloc, wave, sources)?;
                self.show_in(alloc, wave, graph, node, sources)
            }
        }
    }

    /// The list stays where it has these sources, gets them where there is room, and else becomes them.
    fn take_in(&mut self, alloc: Global, wave: &Wave<'_>, sources: &[u32]) -> Result<(), Memory>
        requires list { IsListIn wave.now self.old }
        requires few { length sources.now ≤ 16 }
        requires sources { AreListable wave.now sources.now }
        ensures keeps { OnOk result (KeepsShared wave.now self.old self.new) }
        ensures listed { OnOk result (ListsAll sources.now self.new) }
    {
        let all = union(alloc, self.numbers.as_slice(), sources)?;
        if are_same(all.as_slice(), self.numbers.as_slice()) {
            Ok(())
        } else if all.len() <= MOST {
            self.set(alloc, wave, all)
        } else {
            let own = sources.to_vec(alloc)?;
            self.set(alloc, wave, own)
        }
    }

    /// Another list.
    fn set(&mut self, alloc: Global, wave: &Wave<'_>, numbers: Vec<u32>) -> Result<(), Memory>
        requires few { length numbers.items ≤ 16 }
        requires numbers { AreListable wave.now numbers.items }
        ensures right { OnOk result (IsSharedOf wave.now self.new) }
        ensures numbers { OnOk result (self.new.numbers ≡ numbers.items) }
    {
        let circuit = wave.circuit();
        let list = places_at(alloc, &circuit, numbers.as_slice())?;
        self.tables.set_list(list);
        self.numbers = numbers;
        Ok(())
    }

    /// What the tables over the list show, which has the sources of the next place.
    fn show_in(
        &mut self,
        alloc: Global,
        wave: &Wave<'_>,
        graph: &Graph,
        node: usize,
        sources: &[u32],
    ) -> Result<Shown, Memory>
        requires next { HasNext wave.now }
        requires right { IsSharedIn wave.now (Some graph.now) self.old }
        requires node { IsNextIn wave.now node graph.now }
        requires sources { AreSourcesIn wave.now (next_number wave.now) sources.now }
        requires listed { ListsAll sources.now self.old }
        ensures shown { IfOk result (IsShownNext wave.now) }
        ensures right { OnOk result (IsSharedIn wave.now (Some graph.now) self.new) }
    {
        wave.recall();
        match self.tables.compare(alloc, graph, node)? {
            Compared::Other(other) => Ok(Shown::Verdict(pair_by(alloc, wave, other))),
            Compared::Same(bit) => Ok(settled_if_few(wave, sources, bit)),
            Compared::Nothing => Ok(Shown::Nothing),
        }
    }
}

fn are_same(first: &[u32], second: &[u32]) -> bool
    ensures { Decides result (first.now ≡ second.now) }
{
    first == second
}

/// The places of some numbers.
fn places_at(alloc: Global, circuit: &Circuit<'_>, numbers: &[u32]) -> Result<Vec<Place>, Memory>
    requires within { AllByRecursion (λ k. k < places_of (job_in circuit.now)) numbers.now }
    ensures { IfOk result (λ places. places.items ≡ map (place_at (job_in circuit.now)) numbers.now) }
{
    let mut places = Vec::with_capacity(alloc, numbers.len())?;
    'places: for index in 0..numbers.len() {
        places.push(circuit.place_of(numbers[index] as usize))?;
    }
    Ok(places)
}

/// The empty filling and another one are a pair of the next place, in the order that its bit under the empty one says.
fn pair_by(alloc: Global, wave: &Wave<'_>, other: Other) -> Verdict
    requires next { HasNext wave.now }
    requires other { IsOtherNext wave.now other }
    ensures { HoldsWithoutLog wave.now result }
{
    let Other { filling, empty } = other;
    let none = Items::from_vec(Vec::new(alloc));
    if empty {
        Verdict::from_law(wave, Body::Pair(filling, none))
    } else {
        Verdict::from_law(wave, Body::Pair(none, filling))
    }
}
