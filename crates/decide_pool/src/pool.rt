//! A pool of lanes over the nodes of a graph.

ghost use Rattle.std.specs.Prelude.{IfOk, IfSome};
ghost use Rattle.std.specs.List.{All};
ghost use Rattle.decide_guess.specs.Guess.{IsSourceIn};

use crate::choices::Tables;
use crate::draws::Draws;
use crate::entry::Entry;
use crate::pool_bits::{PoolBits, PoolLane};
use crate::reads::item_at;
use base_lists::Memory;
use decide_graph::Graph;
use decide_guess::NodeBit;
use std::alloc::Global;
use std::collections::HashMap;

/// Lanes over the nodes of a graph. It is to be used on one graph that grows. Takes 122 bytes for each node that was
/// asked for or that such a node rests on, 4 for each node that it reads and 64 for each source, up to 64 megabytes;
/// and some 40 for each table and 4 for each of its minimal choices. At a limit all is forgotten, and made anew as it
/// is asked for.
#[derive(Drop)]
pub struct Pool {
    pub(crate) tables: Tables,
    /// Where the entries of nodes stand, by their numbers in the graph.
    pub(crate) places: HashMap<u32, u32>,
    pub(crate) entries: Vec<Entry>,
    /// By entry: its bits, right of its pass.
    pub(crate) bits: Vec<PoolBits>,
    /// The entries of what nodes read, one list after the other.
    pub(crate) reads: Vec<u32>,
    /// The bits that sources are given, after the first item, which is of no source.
    pub(crate) given: Vec<PoolBits>,
    /// Entries that are to be looked at, the next one last.
    pub(crate) open: Vec<u32>,
    pub(crate) pass: u32,
    pub(crate) walk: u32,
    /// The lane that is laid anew next, and the part of those that are with variations.
    pub(crate) plain: PoolLane,
    pub(crate) varied: usize,
    pub(crate) draws: Draws,
    /// How many calls are to be passed over.
    pub(crate) rest: u32,
}

impl Pool {
    /// No node is known.
    pub fn new(alloc: Global) -> Pool {
        Pool {
            tables: Tables::new(alloc),
            places: HashMap::new(alloc),
            entries: Vec::new(alloc),
            bits: Vec::new(alloc),
            reads: Vec::new(alloc),
            given: Vec::new(alloc),
            open: Vec::new(alloc),
            pass: 1,
            walk: 0,
            plain: PoolLane { part: 0, mark: 1 },
            varied: 4,
            draws: Draws::new(),
            rest: 0,
        }
    }

    /// Sources with 1 that give a node a bit where all others have 0, if the node has that bit in some lane. Linear in
    /// the nodes that it rests on and that weren't evaluated since a filling was taken. Takes 4 bytes for each source
    /// that is listed.
    pub fn filling(
        &mut self,
        alloc: Global,
        graph: &Graph,
        wanted: NodeBit,
    ) -> Result<Option<Vec<u32>>, Memory>
        ensures { IfOk result (λ found. IfSome found (λ ones. All (IsSourceIn graph.now) ones.items)) }
    {
        let Some(place) = self.evaluate(alloc, graph, wanted.node)? else {
            return Ok(None);
        };
        match self.bits_of(place).first(wanted.bit) {
            None => Ok(None),
            Some(lane) => {
                let ones = self.ones_in(alloc, graph, place, lane)?;
                Ok(Some(ones))
            }
        }
    }

    /// A filling that gives a node a bit comes in, by the sources with 1: it is laid over one lane and its variations
    /// over 64, for the sources that the node rests on. Linear in the nodes that it rests on.
    pub fn take(
        &mut self,
        alloc: Global,
        graph: &Graph,
        node: u32,
        ones: &[u32],
    ) -> Result<(), Memory> {
        if let Some(place) = self.evaluate(alloc, graph, node)? {
            self.lay_under(place)?;
            self.lay_all(ones);
            self.go_on();
        }
        Ok(())
    }

    /// Where the entry of a node stands, if it has one.
    pub(crate) fn known(&self, node: u32) -> Option<u32> {
        match self.places.get(&node) {
            Some(place) => Some(*place),
            None => None,
        }
    }

    /// The entry of a place.
    pub(crate) fn entry(&self, place: u32) -> Entry {
        item_at(&self.entries, place as usize, Entry::unread(0))
    }

    /// The place of what is listed as read.
    pub(crate) fn read_at(&self, k: u32) -> u32 {
        item_at(&self.reads, k as usize, 0)
    }

    /// The bits of a place, 0 where it has none.
    pub(crate) fn bits_of(&self, place: u32) -> PoolBits {
        item_at(&self.bits, place as usize, PoolBits::all(false))
    }
}
