//! Saved phases: the bit that each node of the circuit had last before it was taken back. They stay between searches.

use base_lists::Memory;
use sat_watches::{item_at, set_item};
use std::alloc::Global;

/// The bit that a node had last, if it had one. Takes a byte for each node up to the highest that was met.
#[derive(Drop)]
pub(crate) struct Phases {
    bits: Vec<Option<bool>>,
}

impl Phases {
    pub(crate) fn new(alloc: Global) -> Phases {
        Phases {
            bits: Vec::new(alloc),
        }
    }

    /// Makes room for a node.
    pub(crate) fn meet(&mut self, node: u32) -> Result<(), Memory> {
        let place = node as usize;
        if place >= self.bits.len() {
            self.bits.resize(place + 1, None)?;
        }
        Ok(())
    }

    pub(crate) fn note(&mut self, node: u32, bit: bool) {
        set_item(&mut self.bits, node as usize, Some(bit));
    }

    pub(crate) fn bit(&self, node: u32) -> Option<bool> {
        item_at(&self.bits, node as usize, None)
    }
}
