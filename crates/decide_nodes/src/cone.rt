//! Cones as nodes in place order, with their sources.

ghost use Rattle.std.specs.Prelude.{◌≡◌, ◌<◌, IfOk, length, map};
ghost use Rattle.decide_nodes.specs.Lanes.{HasLanes, lane_of, root_in_lane};
ghost use Rattle.decide_nodes.specs.Nodes.{AreNodes, chosen, is_source_node, nothing, root_bit, sources_of};
ghost use Rattle.decide_nodes.specs.Traced.{IsWorldBit};

use crate::evaluate::root_lanes;
use crate::lane_bits::LaneBits;
use crate::lanes::chosen_places;
use crate::listed::listed_table;
use crate::node::Node;
use base_lists::{Items, Memory};
use design_circuit::{Filling, Place};
use std::alloc::Global;
use std::marker::Model;

/// The nodes of a cone, the place that it is of being the last.
#[derive(Drop)]
pub struct Cone {
    nodes: Vec<Node>,
    births: Vec<bool>,
    sources: Vec<Place>,
    base: bool,
}

impl Model for Cone {
    ghost use Rattle.decide_nodes.specs.Nodes.{ConeView, IsSummary};

    ghost Value = { ConeView };

    ghost view = { λ cone. record { nodes = cone.nodes.items } };

    ghost invariant = { λ cone. IsSummary cone.nodes.items cone.births.items cone.sources.items cone.base };
}

impl Cone {
    /// The cone of nodes each of which reads those before it alone. Takes 9 bytes a node, of which it keeps one, and 8
    /// a source.
    pub fn new(alloc: Global, nodes: Vec<Node>) -> Result<Cone, Memory>
        requires { AreNodes nodes.items }
        ensures { IfOk result (λ cone. cone.nodes ≡ nodes.items) }
    {
        let births = births_of(alloc, &nodes)?;
        let sources = sources_in(alloc, &nodes)?;
        let base = base_of(alloc, &nodes, &births)?;
        Ok(Cone {
            nodes,
            births,
            sources,
            base,
        })
    }

    /// The nodes, in place order.
    pub fn nodes(&self) -> &[Node]
        ensures nodes { result.now ≡ self.now.nodes }
        ensures are { AreNodes result.now }
    {
        self.nodes.as_slice()
    }

    /// The sources, in place order.
    pub fn sources(&self) -> &[Place]
        ensures { result.now ≡ sources_of self.now.nodes }
    {
        self.sources.as_slice()
    }

    /// The bit of the place in the world of the empty filling.
    pub fn base(&self) -> bool
        ensures { result ≡ root_bit nothing self.now.nodes }
    {
        self.base
    }

    /// The bit of the place in the world of a filling. Takes 32 bytes a node and a source, and a set of the
    /// filling's places.
    pub fn value(&self, alloc: Global, filling: &Filling) -> Result<bool, Memory>
        ensures world { IfOk result (IsWorldBit self.now.nodes filling.now) }
    {
        let given = listed_table(alloc, filling.as_slice(), self.sources())?;
        let mut lane_table = vec![in alloc; LaneBits::zeros(); self.nodes.len()]?;
        let lane_bits = self.root_lanes(&given, lane_table.as_mut_slice());
        Ok(lane_bits.in_lane(0))
    }

    /// The filling that lists the sources whose lanes have a 1 in a lane. Takes 8 bytes for each of them.
    pub fn chosen(&self, alloc: Global, given: &[LaneBits], lane: u32) -> Result<Filling, Memory>
        requires { lane < 256 }
        ensures { IfOk result (λ filling. filling ≡ chosen (sources_of self.now.nodes) (lane_of given.now lane)) }
    {
        let places = chosen_places(alloc, self.sources(), given, lane)?;
        Ok(Items::from_vec(places))
    }

    pub(crate) fn root_lanes(&self, given: &[LaneBits], lane_table: &mut [LaneBits]) -> LaneBits
        requires { length lane_table.old ≡ length self.now.nodes }
        ensures { HasLanes result (root_in_lane self.now.nodes given.now) }
    {
        root_lanes(
            self.nodes.as_slice(),
            self.births.as_slice(),
            given,
            lane_table,
        )
    }
}

fn births_of(alloc: Global, nodes: &[Node]) -> Result<Vec<bool>, Memory>
    ensures { IfOk result (λ births. births.items ≡ map is_source_node nodes.now) }
{
    let births = nodes.iter().map(|node| node.is_source()).collect(alloc)?;
    Ok(births)
}

fn sources_in(alloc: Global, nodes: &[Node]) -> Result<Vec<Place>, Memory>
    ensures { IfOk result (λ sources. sources.items ≡ sources_of nodes.now) }
{
    let mut sources = Vec::new(alloc);
    'nodes: for node in nodes {
        if node.is_source() {
            sources.push(node.place)?;
        }
    }
    Ok(sources)
}

fn base_of(alloc: Global, nodes: &[Node], births: &[bool]) -> Result<bool, Memory>
    requires nodes { AreNodes nodes.now }
    requires births { births.now ≡ map is_source_node nodes.now }
    ensures { IfOk result (λ base. base ≡ root_bit nothing nodes.now) }
{
    let mut lane_table = vec![in alloc; LaneBits::zeros(); nodes.len()]?;
    let lane_bits = root_lanes(nodes, births, &[], lane_table.as_mut_slice());
    Ok(lane_bits.in_lane(0))
}
