//! The lanes of a wave.

mod asked;
mod guessed;

ghost use Rattle.std.specs.Prelude.{◌≡◌, ◌+◌, ◌-◌, ◌%◌, ◌<◌, ◌≤◌, None, Some, false, true, IfOk, OnOk, length};
ghost use Rattle.design_cell.specs.Value.{is_unknown};
ghost use Rattle.design_circuit.specs.Waveform.{certain};
ghost use Rattle.law_model.specs.Cone.{is_carried};
ghost use Rattle.wave_proved.specs.Contents.{class_in, job, next_number};
ghost use Rattle.wave_proved.specs.Kept.{AllKeepFrom};
ghost use Rattle.wave_proved.specs.Token.{HasNext};
ghost use Rattle.decide_lane_nodes.specs.InWave.{IsInReach, IsLiteralIn};
ghost use Rattle.decide_lane_nodes.specs.Literal.{constant};
ghost use Rattle.decide_lanes.specs.Lanes.{IsLookedAt, IsNextNode, IsRightOf, IsRightOfAny, Keeps, count_of};
ghost use Rattle.decide_lanes.specs.Roots.{place_of};

use crate::equals::Equals;
use crate::graphs::grown;
use crate::shared::Shared;
use base_lists::Memory;
use decide_graph::Graph;
use decide_lane_nodes::{
    Covered, Literal, LiteralRows, Nodes, constant, literal_at, make_node, put_node,
};
use design_cell::Value;
use design_circuit::{Source, width_of};
use law_model::ClassByNumber;
use std::alloc::Global;
use std::marker::Model;
use wave_proved::Wave;

/// The literals of the first places of a wave. Contracts see the nodes, the literals of the last of these places from a
/// first one on, the node of the place after them, once it is looked at, and the graph of the nodes, as long as it is
/// kept, with the tables that its nodes share, and how wide a row of literals is.
#[derive(Drop)]
pub struct Lanes {
    nodes: Nodes,
    first: usize,
    literals: LiteralRows,
    next: Option<usize>,
    graph: Option<Graph>,
    shared: Shared,
    equals: Equals,
    room: Vec<Value>,
    positions: Vec<u32>,
}

impl Model for Lanes {
    ghost use Rattle.std.specs.Prelude.{◌+◌, ◌≤◌, ◌^◌, length};
    ghost use Rattle.decide_lanes.specs.Lanes.{LanesView};

    ghost Value = { LanesView };

    ghost view = { λ lanes. record {
      nodes = lanes.nodes;
      first = lanes.first;
      literals = lanes.literals.literals;
      next = lanes.next;
      graph = lanes.graph;
      shared = lanes.shared;
      width = lanes.literals.width;
    } };

    ghost invariant = { λ lanes. lanes.first + length lanes.literals.literals ≤ 2 ^ 40 };
}

impl Lanes {
    /// No place is covered.
    pub fn new(alloc: Global) -> Result<Lanes, Memory>
        ensures { IfOk result IsRightOfAny }
    {
        Ok(Lanes {
            nodes: Nodes::new(alloc)?,
            first: 0,
            literals: LiteralRows::new(alloc, 1)?,
            next: None,
            graph: Some(Graph::new(alloc)),
            shared: Shared::new(alloc),
            equals: Equals::new(alloc),
            room: Vec::new(alloc),
            positions: Vec::new(alloc),
        })
    }

    /// How many places are covered.
    pub fn count(&self) -> usize
        ensures { result ≡ count_of self.now }
    {
        self.first + self.literals.len()
    }

    /// Covers every written place of a wave, those that were covered before it at no cost, and a run of places that
    /// keep at that of one. Takes 16 bytes for each net, 4 for each literal that moves in one of the last three steps,
    /// and for each Free and each Line place the memory of a node, here and in the graph.
    pub fn follow(&mut self, alloc: Global, wave: &Wave<'_>) -> Result<(), Memory>
        requires { IsRightOf wave.now self.old }
        ensures right { OnOk result (IsRightOf wave.now self.new) }
        ensures all { OnOk result (count_of self.new ≡ length wave.now.written) }
    {
        self.cover(alloc, wave, wave.count())
    }

    /// Covers the first places of a wave, as many as a count says, as `follow` does.
    pub fn cover(&mut self, alloc: Global, wave: &Wave<'_>, count: usize) -> Result<(), Memory>
        requires right { IsRightOf wave.now self.old }
        requires more { count_of self.old ≤ count }
        requires written { count ≤ length wave.now.written }
        ensures right { OnOk result (IsRightOf wave.now self.new) }
        ensures count { OnOk result (count_of self.new ≡ count) }
    {
        'places: while self.count() < count {
            self.begin(alloc, wave)?;
            self.cover_some(alloc, wave, count)?;
        }
        Ok(())
    }

    /// Before the first place: a row is as wide as a step of the wave.
    fn begin(&mut self, alloc: Global, wave: &Wave<'_>) -> Result<(), Memory>
        requires right { IsRightOf wave.now self.old }
        requires more { count_of self.old < length wave.now.written }
        ensures right { OnOk result (IsRightOf wave.now self.new) }
        ensures count { OnOk result (count_of self.new ≡ count_of self.old) }
        ensures width { OnOk result (self.new.width ≡ (job wave.now).width) }
    {
        let circuit = wave.circuit();
        if self.count() == 0 {
            self.literals = LiteralRows::new(alloc, width_of(&circuit))?;
        }
        Ok(())
    }

    /// Covers some places more, up to a count: those of a row that keep, where the first one does, or that one alone.
    fn cover_some(&mut self, alloc: Global, wave: &Wave<'_>, count: usize) -> Result<(), Memory>
        requires right { IsRightOf wave.now self.old }
        requires width { self.old.width ≡ (job wave.now).width }
        requires more { count_of self.old < count }
        requires written { count ≤ length wave.now.written }
        ensures right { OnOk result (IsRightOf wave.now self.new) }
        ensures more { OnOk result (count_of self.old < count_of self.new) }
        ensures within { OnOk result (count_of self.new ≤ count) }
    {
        let place = self.count();
        let end = place + self.literals.room().min(count - place);
        let kept = wave.kept_up_to(place, end);
        if kept > place {
            self.repeat(wave, kept - place);
            Ok(())
        } else {
            self.cover_one(alloc, wave)
        }
    }

    /// Covers so many places of a row, which keep: each has the literal of its net's place a step before.
    fn repeat(&mut self, wave: &Wave<'_>, many: usize)
        requires right { IsRightOf wave.now self.old }
        requires width { self.old.width ≡ (job wave.now).width }
        requires some { 0 < many }
        requires room { many ≤ self.old.width - length self.old.literals % self.old.width }
        requires written { count_of self.old + many ≤ length wave.now.written }
        requires keep { AllKeepFrom (job wave.now) wave.now.written (count_of self.old) (count_of self.old + many) }
        ensures right { IsRightOf wave.now self.new }
        ensures count { count_of self.new ≡ count_of self.old + many }
    {
        wave.recall();
        let gone = self.literals.repeat(many);
        self.first += gone;
        self.next = None;
    }

    /// Covers one written place more.
    fn cover_one(&mut self, alloc: Global, wave: &Wave<'_>) -> Result<(), Memory>
        requires right { IsRightOf wave.now self.old }
        requires width { self.old.width ≡ (job wave.now).width }
        requires more { count_of self.old < length wave.now.written }
        ensures right { OnOk result (IsRightOf wave.now self.new) }
        ensures one { OnOk result (count_of self.new ≡ count_of self.old + 1) }
    {
        wave.recall();
        let place = self.count();
        let literal = self.literal_of(alloc, wave, place)?;
        let gone = self.literals.push(literal)?;
        self.first += gone;
        self.next = None;
        Ok(())
    }

    /// The literal of the first place that isn't covered.
    fn literal_of(
        &mut self,
        alloc: Global,
        wave: &Wave<'_>,
        place: usize,
    ) -> Result<Literal, Memory>
        requires right { IsRightOf wave.now self.old }
        requires place { place ≡ count_of self.old }
        requires more { place < length wave.now.written }
        ensures right { OnOk result (IsRightOf wave.now self.new) }
        ensures keeps { OnOk result (Keeps self.old self.new) }
        ensures literal { IfOk result (λ literal. IsLiteralIn wave.now self.new.nodes literal place) }
    {
        wave.recall();
        match certain_value(wave, place) {
            Value::Zero => Ok(constant(false)),
            Value::One => Ok(constant(true)),
            Value::X => self.literal_by_class(alloc, wave, place),
            Value::Z => self.literal_by_class(alloc, wave, place),
        }
    }

    /// That of an uncertain one, by its class.
    fn literal_by_class(
        &mut self,
        alloc: Global,
        wave: &Wave<'_>,
        place: usize,
    ) -> Result<Literal, Memory>
        requires right { IsRightOf wave.now self.old }
        requires place { place ≡ count_of self.old }
        requires more { place < length wave.now.written }
        requires uncertain { is_unknown (certain wave.now.written place) ≡ true }
        ensures right { OnOk result (IsRightOf wave.now self.new) }
        ensures keeps { OnOk result (Keeps self.old self.new) }
        ensures literal { IfOk result (λ literal. IsLiteralIn wave.now self.new.nodes literal place) }
    {
        wave.recall();
        match wave.class_by_number(place) {
            ClassByNumber::Carried(from, inverted) => {
                Ok(literal_at(self.covered(), from).turned(inverted))
            }
            ClassByNumber::Local(_) => self.own_literal(alloc, wave, place),
            ClassByNumber::Free => self.own_literal(alloc, wave, place),
            ClassByNumber::Line => self.own_literal(alloc, wave, place),
        }
    }

    /// That of one that isn't carried: its own node.
    fn own_literal(
        &mut self,
        alloc: Global,
        wave: &Wave<'_>,
        place: usize,
    ) -> Result<Literal, Memory>
        requires right { IsRightOf wave.now self.old }
        requires place { place ≡ count_of self.old }
        requires reach { IsInReach wave.now place }
        requires free { is_carried (class_in wave.now place) ≡ false }
        ensures right { OnOk result (IsRightOf wave.now self.new) }
        ensures keeps { OnOk result (Keeps self.old self.new) }
        ensures literal { IfOk result (λ literal. IsLiteralIn wave.now self.new.nodes literal place) }
    {
        let node = self.node_of(alloc, wave, place)?;
        let _count = self.nodes.len();
        Ok(Literal::new(node, false))
    }

    /// The node of the first place that isn't covered, where that isn't carried: the one that was made when it was
    /// looked at, or a new one. So that place is looked at.
    fn node_of(&mut self, alloc: Global, wave: &Wave<'_>, place: usize) -> Result<usize, Memory>
        requires right { IsRightOf wave.now self.old }
        requires place { place ≡ count_of self.old }
        requires reach { IsInReach wave.now place }
        requires free { is_carried (class_in wave.now place) ≡ false }
        ensures right { OnOk result (IsRightOf wave.now self.new) }
        ensures keeps { OnOk result (Keeps self.old self.new) }
        ensures node { IfOk result (λ node. IsNextNode wave.now self.new.nodes place node) }
        ensures looked { IfOk result (λ node. self.new.next ≡ Some node) }
    {
        wave.recall();
        match self.next {
            Some(node) => Ok(node),
            None => self.new_node(alloc, wave, place),
        }
    }

    /// A new one.
    fn new_node(&mut self, alloc: Global, wave: &Wave<'_>, place: usize) -> Result<usize, Memory>
        requires right { IsRightOf wave.now self.old }
        requires none { self.old.next ≡ None }
        requires place { place ≡ count_of self.old }
        requires reach { IsInReach wave.now place }
        requires free { is_carried (class_in wave.now place) ≡ false }
        ensures right { OnOk result (IsRightOf wave.now self.new) }
        ensures keeps { OnOk result (Keeps self.old self.new) }
        ensures node { IfOk result (λ node. IsNextNode wave.now self.new.nodes place node) }
        ensures looked { IfOk result (λ node. self.new.next ≡ Some node) }
    {
        let circuit = wave.circuit();
        let covered = Covered {
            nodes: &self.nodes,
            first: self.first,
            literals: &self.literals,
        };
        let made = make_node(alloc, wave, covered, place, &mut self.room)?;
        let graph = self.graph.take();
        let roots = made.roots.as_slice();
        let values = made.values.as_slice();
        self.graph = grown(alloc, graph, circuit.place_of(place), roots, values)?;
        let node = put_node(&mut self.nodes, made)?;
        self.next = Some(node);
        Ok(node)
    }

    /// Looks at the next place, which isn't carried: covers every place before it, and makes its node.
    pub fn look(&mut self, alloc: Global, wave: &Wave<'_>) -> Result<(), Memory>
        requires right { IsRightOf wave.now self.old }
        requires next { HasNext wave.now }
        requires free { is_carried (class_in wave.now (next_number wave.now)) ≡ false }
        ensures right { OnOk result (IsRightOf wave.now self.new) }
        ensures looked { OnOk result (IsLookedAt wave.now self.new) }
    {
        wave.recall();
        self.follow(alloc, wave)?;
        let place = self.count();
        self.node_of(alloc, wave, place)?;
        Ok(())
    }

    /// The places that are covered.
    pub(crate) fn covered(&self) -> Covered<'_>
        ensures nodes { result.nodes.now ≡ self.now.nodes }
        ensures first { result.first ≡ self.now.first }
        ensures literals { result.literals.now.literals ≡ self.now.literals }
    {
        Covered {
            nodes: &self.nodes,
            first: self.first,
            literals: &self.literals,
        }
    }
}

/// The value of a written place where it is certain, else x.
pub fn certain_value(wave: &Wave<'_>, place: usize) -> Value
    requires { place < length wave.now.written }
    ensures { result ≡ certain wave.now.written place }
{
    Source::value(wave, place)
}
