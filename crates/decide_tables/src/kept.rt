//! Tables of nodes, one after another. Where the table of a node stands is noted at a slot of the node, and what is
//! found there is looked at, so that all tables go in a moment, whatever the slots then say.

ghost use Rattle.std.specs.Prelude.{◌≡◌, ◌++◌, ◌∷◌, [], IfOk, IfSome, OnOk};
ghost use Rattle.decide_tables.specs.Tables.{HasTable};

use base_lists::Memory;
use decide_nodes::LaneBits;
use std::alloc::Global;
use std::marker::Model;

/// How many blocks are many, in 32 megabytes.
const MANY_BLOCKS: usize = 1_048_576;

/// A node, and where its blocks stand among those of all tables: 16 bytes.
#[derive(Clone, Copy, Debug)]
pub struct Entry {
    start: usize,
    node: u32,
    count: u32,
}

/// Tables in the order in which they came in. Contracts see them. Takes 16 bytes a table, 32 a block, and 4 for each
/// node of the graph.
#[derive(Drop)]
pub struct KeptTables {
    slots: Vec<u32>,
    entries: Vec<Entry>,
    blocks: Vec<LaneBits>,
}

impl Model for KeptTables {
    ghost use Rattle.std.specs.Prelude.{List};
    ghost use Rattle.decide_tables.specs.Kept.{AreTablesWithin, seen_tables};
    ghost use Rattle.decide_tables.specs.Tables.{NodeTable};

    ghost Value = { List NodeTable };

    ghost view = { λ kept. seen_tables kept.blocks.items kept.entries.items };

    ghost invariant = { λ kept. AreTablesWithin kept.blocks.items kept.entries.items };
}

impl KeptTables {
    /// No tables.
    pub fn new(alloc: Global) -> KeptTables
        ensures { result ≡ [] }
    {
        KeptTables {
            slots: Vec::new(alloc),
            entries: Vec::new(alloc),
            blocks: Vec::new(alloc),
        }
    }

    /// All tables go. Their memory stays. Takes no time that grows with them.
    pub fn clear(&mut self)
        ensures { self.new ≡ [] }
    {
        self.entries.clear();
        self.blocks.clear();
    }

    /// Whether they have so many blocks that no more are to come in.
    pub fn is_full(&self) -> bool {
        self.blocks.len() >= MANY_BLOCKS
    }

    /// Whether the table of a node is found.
    pub fn has(&self, node: usize) -> bool {
        self.find(node).is_some()
    }

    /// The blocks of a node, where they are found.
    pub fn find(&self, node: usize) -> Option<&[LaneBits]>
        ensures { IfSome result (λ blocks. HasTable self.now node blocks.now) }
    {
        let index = slot_of(self.slots.as_slice(), node);
        if index >= self.entries.len() {
            return None;
        }
        let entry = self.entries[index];
        if entry.node as usize != node {
            return None;
        }
        let end = entry.start + entry.count as usize;
        Some(&self.blocks[entry.start..end])
    }

    /// The table of a node comes in.
    pub fn push(&mut self, node: usize, blocks: &[LaneBits]) -> Result<(), Memory>
        ensures { OnOk result (self.new ≡ self.old ++ record { node = node; blocks = blocks.now } ∷ []) }
    {
        let entry = Entry {
            start: self.blocks.len(),
            node: narrow(node)?,
            count: narrow(blocks.len())?,
        };
        note(&mut self.slots, node, narrow(self.entries.len())?)?;
        self.blocks.extend_from_slice(blocks)?;
        self.entries.push(entry)?;
        Ok(())
    }
}

/// What stands at the slot of a node, which may be anything.
fn slot_of(slots: &[u32], node: usize) -> usize {
    if node < slots.len() {
        slots[node] as usize
    } else {
        usize::MAX
    }
}

/// At the slot of a node it stands where its table is.
fn note(slots: &mut Vec<u32>, node: usize, index: u32) -> Result<(), Memory> {
    'more: while slots.len() <= node {
        slots.push(0)?;
    }
    slots[node] = index;
    Ok(())
}

/// A number in four bytes, if it fits.
fn narrow(number: usize) -> Result<u32, Memory>
    ensures { IfOk result (λ narrow. narrow ≡ number) }
{
    if number > u32::MAX as usize {
        return Err(Memory);
    }
    Ok(number as u32)
}
