//! The nodes of places that aren't carried: their bits in the lanes, and their sources where these are few.

ghost use Rattle.std.specs.Prelude.{◌≡◌, ℕ, ◌<◌, ◌≤◌, ◌^◌, ◌++◌, ◌∷◌, [], None, Some, MatchOption, OnErr, OnOk, IfOk};
ghost use Rattle.std.specs.Prelude.{length};
ghost use Rattle.decide_lane_nodes.specs.Nodes.{NodeView, node_at, with_node, zero_node, zeros};

use crate::lists::{ListNumber, Lists};
use base_lists::Memory;
use decide_nodes::LaneBits;
use std::alloc::Global;
use std::marker::Model;
use std::mem::size_of;

/// A place, its bits in the lanes, and which of the lists has its sources: 48 bytes.
#[derive(Clone, Copy)]
pub struct Node {
    lane_bits: LaneBits,
    place: usize,
    list: ListNumber,
}

const _: () = prove!(size_of::<Node>() == 48);

/// How many nodes there are at most, so that a literal has 4 bytes.
const MOST_NODES: usize = 0x8000_0000;

/// Nodes by number, of which the first has 0 in each lane. A node may share its list of sources with an earlier one.
/// Contracts see for each node the place, the lanes and the list. Takes 48 bytes a node, and for each list that isn't
/// shared 8 bytes and 4 a source.
#[derive(Drop)]
pub struct Nodes {
    nodes: Vec<Node>,
    lists: Lists,
}

impl Model for Nodes {
    ghost use Rattle.std.specs.Prelude.{List, ◌≤◌, ◌^◌, length, map};
    ghost use Rattle.decide_lane_nodes.specs.Nodes.{NodeView, AreKept, seen_node};

    ghost Value = { List NodeView };

    ghost view = { λ n. map (seen_node n.lists) n.nodes.items };

    ghost invariant = { λ n. AreKept n.lists n.nodes.items × length n.nodes.items ≤ 2 ^ 31 };
}

impl Nodes {
    /// The node with 0 in each lane. Takes 48 bytes.
    pub fn new(alloc: Global) -> Result<Nodes, Memory>
        ensures { IfOk result (λ nodes. nodes ≡ zero_node ∷ []) }
    {
        let zero = Node {
            lane_bits: LaneBits::new([0, 0, 0, 0]),
            place: 0,
            list: ListNumber::none(),
        };
        let mut nodes = Vec::new(alloc);
        nodes.push(zero)?;
        Ok(Nodes {
            nodes,
            lists: Lists::new(alloc),
        })
    }

    /// How many there are.
    pub fn len(&self) -> usize
        ensures count { result ≡ length self.now }
        ensures few { length self.now ≤ 2 ^ 31 }
    {
        self.nodes.len()
    }

    /// Whether the lists have so many places that no more are to come in.
    pub(crate) fn is_full(&self) -> bool {
        self.lists.is_full()
    }

    /// The place of a node, by number.
    pub fn place(&self, node: usize) -> usize
        requires { node < length self.now }
        ensures { result ≡ (node_at self.now node).place }
    {
        self.nodes[node].place
    }

    /// The bits of a node in the lanes.
    pub fn lane_bits(&self, node: usize) -> LaneBits
        requires { node < length self.now }
        ensures { result ≡ (node_at self.now node).lane_bits }
    {
        self.nodes[node].lane_bits
    }

    /// The sources of a node, where they are kept.
    pub fn sources(&self, node: usize) -> Option<&[u32]>
        requires { node < length self.now }
        ensures { MatchOption result ((node_at self.now node).sources ≡ None)
            (λ list. (node_at self.now node).sources ≡ Some list.now) }
    {
        match self.nodes[node].list.number() {
            Some(list) => Some(self.lists.list(list)),
            None => None,
        }
    }

    /// A node comes in, whose sources aren't kept.
    pub(crate) fn push_unlisted(&mut self, place: usize, lane_bits: LaneBits) -> Result<(), Memory>
        ensures { OnOk result (self.new ≡ with_node self.old place lane_bits None) }
    {
        let node = Node {
            lane_bits,
            place,
            list: ListNumber::none(),
        };
        push_node(&mut self.nodes, node)
    }

    /// A node comes in that shares the list of another.
    pub(crate) fn push_shared(
        &mut self,
        place: usize,
        lane_bits: LaneBits,
        other: usize,
    ) -> Result<(), Memory>
        requires { other < length self.old }
        ensures { OnOk result (self.new ≡ with_node self.old place lane_bits (node_at self.old other).sources) }
    {
        let list = self.nodes[other].list;
        let node = Node {
            lane_bits,
            place,
            list,
        };
        push_node(&mut self.nodes, node)
    }

    /// A node comes in with its sources.
    pub(crate) fn push_listed(
        &mut self,
        place: usize,
        lane_bits: LaneBits,
        sources: &[u32],
    ) -> Result<(), Memory>
        ensures { OnOk result (self.new ≡ with_node self.old place lane_bits (Some sources.now)) }
    {
        let list = ListNumber::some(self.lists.len())?;
        self.lists.push(sources)?;
        let node = Node {
            lane_bits,
            place,
            list,
        };
        push_node(&mut self.nodes, node)?;
        Ok(())
    }
}

/// A node comes in, if there is room.
fn push_node(nodes: &mut Vec<Node>, node: Node) -> Result<(), Memory>
    requires { length nodes.old.items ≤ 2 ^ 31 }
    ensures ok { OnOk result (nodes.new.items ≡ nodes.old.items ++ node ∷ []) }
    ensures err { OnErr result (nodes.new.items ≡ nodes.old.items) }
    ensures few { length nodes.new.items ≤ 2 ^ 31 }
{
    if nodes.len() >= MOST_NODES {
        return Err(Memory);
    }
    nodes.push(node)?;
    Ok(())
}
