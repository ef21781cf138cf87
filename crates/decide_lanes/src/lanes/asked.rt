//! What lanes show of the next place, which was looked at, and of places that they cover.

ghost use Rattle.std.specs.Prelude.{◌≡◌, ◌+◌, ◌-◌, ◌<◌, None, Some, IfOk, IfSome, IsNone, MatchOption, OnOk, length};
ghost use Rattle.wave_proved.specs.Token.{PairHolds};
ghost use Rattle.decide_nodes.specs.Traced.{IsConeOf, IsNextCone};
ghost use Rattle.decide_lanes.specs.Equal.{AreEqualIn};
ghost use Rattle.decide_lanes.specs.Lanes.{IsLookedAt, IsRightOf};
ghost use Rattle.decide_lanes.specs.Shown.{IsShownNext};
ghost use Rattle.decide_lanes.specs.Roots.{HasNode, place_of};
ghost use Rattle.decide_lanes.specs.Pairs.{AllAgree, GiveBoth, HasNoPair, bit_under, lane_filling};

use super::Lanes;
use crate::graphs::cone_of;
use crate::pair::{bit_of, filling_of, lanes_of, pair_of};
use crate::shown::{Shown, shown_as};
use base_lists::Memory;
use decide_nodes::Cone;
use design_circuit::{Filling, Place};
use std::alloc::Global;
use wave_proved::{Verdict, Wave};

impl Lanes {
    /// The verdict of the next place, which was looked at, where two lanes give it 0 and 1 and its sources are kept:
    /// the empty filling, and what the filling of a lane lists of the sources. Takes 8 bytes for each place that it
    /// lists.
    pub fn find(&self, alloc: Global, wave: &Wave<'_>) -> Result<Option<Verdict>, Memory>
        requires right { IsRightOf wave.now self.now }
        requires looked { IsLookedAt wave.now self.now }
        ensures holds { IfOk result (λ found. IfSome found (PairHolds wave.now)) }
        ensures none { IfOk result (λ found. IsNone found → IfSome self.now.next (HasNoPair self.now.nodes)) }
    {
        match self.next {
            None => unreachable!(),
            Some(node) => pair_of(alloc, wave, &self.nodes, node),
        }
    }

    /// What is shown of the next place, which was looked at, by an earlier one that rests on the same by the same
    /// table, without x, and was asked for too: its fillings, or its bit, where the sources are kept and few, or else
    /// that place. Takes 8 bytes for each place that the fillings list, and some 32 bytes so that later places find
    /// this one, 64 megabytes at most.
    pub fn find_equal(&mut self, alloc: Global, wave: &Wave<'_>) -> Result<Shown, Memory>
        requires right { IsRightOf wave.now self.old }
        requires looked { IsLookedAt wave.now self.old }
        ensures shown { IfOk result (IsShownNext wave.now) }
        ensures keeps { self.new ≡ self.old }
    {
        match self.next {
            None => unreachable!(),
            Some(node) => match self.equal_node(node - 1)? {
                Some(other) => self.shown_by(alloc, wave, node, other),
                None => Ok(Shown::Nothing),
            },
        }
    }

    /// A node of the graph that came before and is equal to one, if it is kept.
    fn equal_node(&mut self, node: usize) -> Result<Option<usize>, Memory>
        requires node { IfSome self.old.graph (λ nodes. node < length nodes) }
        ensures equal { IfOk result (λ found. IfSome found (AreEqualIn self.old.graph node)) }
        ensures keeps { self.new ≡ self.old }
    {
        match &self.graph {
            Some(graph) => self.equals.find(graph, node),
            None => Ok(None),
        }
    }

    /// What the place of an equal node shows.
    fn shown_by(
        &self,
        alloc: Global,
        wave: &Wave<'_>,
        node: usize,
        other: usize,
    ) -> Result<Shown, Memory>
        requires right { IsRightOf wave.now self.now }
        requires looked { IsLookedAt wave.now self.now }
        requires next { self.now.next ≡ Some node }
        requires equal { AreEqualIn self.now.graph (node - 1) other }
        ensures { IfOk result (IsShownNext wave.now) }
    {
        wave.recall();
        let place = self.nodes.place(other + 1);
        if place >= wave.count() {
            return Ok(Shown::Nothing);
        }
        shown_as(alloc, wave, place, self.nodes.sources(node))
    }

    /// What tables show of the next place, which was looked at, where its sources are kept and at most 16: a filling
    /// that gives another bit than the empty one, or that every filling gives one bit, where they are few.
    pub fn find_shared(&mut self, alloc: Global, wave: &Wave<'_>) -> Result<Shown, Memory>
        requires right { IsRightOf wave.now self.old }
        requires looked { IsLookedAt wave.now self.old }
        ensures shown { IfOk result (IsShownNext wave.now) }
        ensures right { OnOk result (IsRightOf wave.now self.new) }
        ensures looked { OnOk result (IsLookedAt wave.now self.new) }
    {
        match self.next {
            None => unreachable!(),
            Some(node) => match self.nodes.sources(node) {
                None => Ok(Shown::Nothing),
                Some(list) => self.shared.show(alloc, wave, &self.graph, node - 1, list),
            },
        }
    }

    /// The cone of the next place, which was looked at, as long as the graph is kept: what is reached in it from its
    /// node. Takes what the nodes of the cone take, and at most 4 bytes a node of the graph.
    pub fn cone(&mut self, alloc: Global, wave: &Wave<'_>) -> Result<Option<Cone>, Memory>
        requires right { IsRightOf wave.now self.old }
        requires looked { IsLookedAt wave.now self.old }
        ensures cone { IfOk result (λ found. IfSome found (λ cone. IsNextCone wave.now cone.nodes)) }
        ensures keeps { self.new ≡ self.old }
    {
        wave.recall();
        match self.next {
            None => unreachable!(),
            Some(node) => cone_of(alloc, &self.graph, node - 1, &mut self.positions),
        }
    }

    /// The cone of the place of a node, as long as the graph is kept, as `cone` gives that of the next place.
    pub fn cone_at(
        &mut self,
        alloc: Global,
        wave: &Wave<'_>,
        node: usize,
    ) -> Result<Option<Cone>, Memory>
        requires right { IsRightOf wave.now self.old }
        requires node { HasNode self.old node }
        ensures cone { IfOk result (λ found. IfSome found (λ cone. IsConeOf wave.now (place_of self.old node) cone.nodes)) }
        ensures keeps { self.new ≡ self.old }
    {
        wave.recall();
        cone_of(alloc, &self.graph, node - 1, &mut self.positions)
    }

    /// What the filling of a lane lists of the sources of the next place, which was looked at, where they are kept.
    /// Takes 8 bytes for each place that it lists.
    pub fn filling(
        &self,
        alloc: Global,
        wave: &Wave<'_>,
        lane: u32,
    ) -> Result<Option<Filling>, Memory>
        requires right { IsRightOf wave.now self.now }
        requires looked { IsLookedAt wave.now self.now }
        requires lane { lane < 256 }
        ensures { IfOk result (λ found. IfSome found (λ filling. filling ≡ lane_filling wave.now lane)) }
    {
        match self.next {
            None => unreachable!(),
            Some(node) => filling_of(alloc, wave, &self.nodes, node, lane),
        }
    }

    /// The bit of the next place, which was looked at, in the world of a filling, where that lists of its sources what
    /// the filling of a lane does, and no other place, and they are kept; else none. Takes 8 bytes for each place that
    /// it lists.
    pub fn bit(
        &self,
        alloc: Global,
        wave: &Wave<'_>,
        filling: &[Place],
    ) -> Result<Option<bool>, Memory>
        requires right { IsRightOf wave.now self.now }
        requires looked { IsLookedAt wave.now self.now }
        ensures { IfOk result (λ found. IfSome found (λ bit. bit ≡ bit_under wave.now filling.now)) }
    {
        match self.next {
            None => unreachable!(),
            Some(node) => bit_of(alloc, wave, &self.nodes, node, filling),
        }
    }

    /// Two lanes that give the next place, which was looked at, 0 and 1; none exactly where all lanes give it the same
    /// bit.
    pub fn pair(&self, wave: &Wave<'_>) -> Option<(u32, u32)>
        requires right { IsRightOf wave.now self.now }
        requires looked { IsLookedAt wave.now self.now }
        ensures { MatchOption result (AllAgree wave.now) (GiveBoth wave.now) }
    {
        match self.next {
            None => unreachable!(),
            Some(node) => lanes_of(self.nodes.lane_bits(node)),
        }
    }
}
