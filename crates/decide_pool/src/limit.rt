//! What a pool keeps at most, and what it does past that.

use crate::pool::Pool;
use std::alloc::Global;

/// So much is kept of nodes, at most: then all is forgotten. 64 megabytes hold some 500,000 nodes that read three.
const MOST_BYTES: usize = 67_108_864;

/// So many tables are kept, at most: then all is forgotten.
const MOST_TABLES: usize = 65_536;

/// A node has 64 bytes of bits, an entry of 32, and some 26 by which it is found.
const NODE_BYTES: usize = 122;

const READ_BYTES: usize = 4;

const SOURCE_BYTES: usize = 64;

/// So many calls are passed over after a node that rests on more than is ever kept: so such nodes cost little.
const REST: u32 = 1_000;

impl Pool {
    /// Whether as much is kept as there may be.
    pub(crate) fn is_full(&self) -> bool {
        let nodes = self.entries.len().saturating_mul(NODE_BYTES);
        let reads = self.reads.len().saturating_mul(READ_BYTES);
        let sources = self.given.len().saturating_mul(SOURCE_BYTES);
        let bytes = nodes.saturating_add(reads).saturating_add(sources);
        bytes >= MOST_BYTES || self.tables.len() >= MOST_TABLES
    }

    /// Whether a call is to be passed over; then one less is.
    pub(crate) fn rests(&mut self) -> bool {
        let rests = self.rest != 0;
        self.rest = self.rest.saturating_sub(1);
        rests
    }

    /// Nothing is known any more, but what is drawn next; what was too much by itself makes the pool rest.
    pub(crate) fn forget(&mut self, alloc: Global, alone: bool) {
        let draws = self.draws;
        *self = Pool::new(alloc);
        self.draws = draws;
        if alone {
            self.rest = REST;
        }
    }
}
