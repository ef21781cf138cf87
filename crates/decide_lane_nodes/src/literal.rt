//! Literals: a node, as it is or inverted, as in and-inverter graphs. Each place that is covered has one.

ghost use Rattle.std.specs.Prelude.{◌≡◌, ◌<◌, ◌+◌, ◌^◌, None, Some, IsTrue, MatchOption, length};
ghost use Rattle.law_model.specs.Class.{flipped};
ghost use Rattle.decide_nodes.specs.Lanes.{HasLanes};
ghost use Rattle.decide_lane_nodes.specs.Covered.{IsCovered, covered_bit, covered_literal, covered_sources};
ghost use Rattle.decide_lane_nodes.specs.Literal.{constant, literal_of, turned};

use crate::nodes::Nodes;
use crate::rows::LiteralRows;
use decide_nodes::LaneBits;
use std::marker::Model;

/// A node by number, as it is or inverted, in 4 bytes: twice the number, and 1 more where it is inverted.
#[derive(Clone, Copy, Debug)]
pub struct Literal {
    code: u32,
}

impl Model for Literal {
    ghost use Rattle.decide_lane_nodes.specs.Literal.{LiteralView, packed, unpacked};
    ghost use Rattle.decide_graph.proofs.NumberBits.{half_back};

    ghost Value = { LiteralView };

    ghost view = { λ literal. unpacked literal.code };

    ghost inverse = { λ literal. record { code = packed literal } };

    ghost inverse_ok = { λ literal h i. record { code = half_back literal.code i } };
}

impl Literal {
    /// The literal of a node.
    pub fn new(node: usize, inverted: bool) -> Literal
        requires { node < 2 ^ 31 }
        ensures { result ≡ literal_of node inverted }
    {
        let last = if inverted { 1 } else { 0 };
        Literal {
            code: 2 * node as u32 + last,
        }
    }

    /// Its node.
    pub fn node(self) -> usize
        ensures node { result ≡ self.node }
        ensures few { result < 2 ^ 31 }
    {
        self.code as usize / 2
    }

    /// Whether it is inverted.
    pub fn is_inverted(self) -> bool
        ensures { result ≡ self.inverted }
    {
        self.code % 2 == 1
    }

    /// Whether it is the same as another one.
    pub fn is_same(self, other: Literal) -> bool
        ensures { IsTrue result → self ≡ other }
    {
        self.code == other.code
    }

    /// The literal, or its complement.
    pub fn turned(self, inverted: bool) -> Literal
        ensures { result ≡ turned inverted self }
    {
        Literal::new(self.node(), flipped(inverted, self.is_inverted()))
    }
}

fn flipped(inverted: bool, bit: bool) -> bool
    ensures { result ≡ flipped inverted bit }
{
    if inverted { !bit } else { bit }
}

/// The literal of a bit.
pub fn constant(bit: bool) -> Literal
    ensures { result ≡ constant bit }
{
    Literal::new(0, bit)
}

/// Places that have literals: the last ones, from a first one on, over some nodes.
#[derive(Clone, Copy)]
pub struct Covered<'t> {
    pub nodes: &'t Nodes,
    pub first: usize,
    pub literals: &'t LiteralRows,
}

/// The literal of a place.
pub fn literal_at(covered: Covered<'_>, place: usize) -> Literal
    requires { IsCovered covered place }
    ensures { result ≡ covered_literal covered.entry place }
{
    covered.literals.at(place - covered.first)
}

/// The bits of a place in the lanes.
pub fn lanes_at(covered: Covered<'_>, place: usize) -> LaneBits
    requires { IsCovered covered place }
    ensures { HasLanes result (λ lane. covered_bit covered.entry lane place) }
{
    let literal = literal_at(covered, place);
    covered
        .nodes
        .lane_bits(literal.node())
        .turned(literal.is_inverted())
}

/// The sources of a place, where they are kept.
pub fn sources_at<'t>(covered: Covered<'t>, place: usize) -> Option<&'t [u32]>
    requires { IsCovered covered place }
    ensures { let kept = covered_sources covered.entry place in
        MatchOption result (kept ≡ None) (λ list. kept ≡ Some list.now) }
{
    let literal = literal_at(covered, place);
    covered.nodes.sources(literal.node())
}
