//! A filling laid over lanes, with its variations.

use crate::entry::Entry;
use crate::pool::Pool;
use crate::pool_bits::{PARTS, PoolBits, equal_bits};
use crate::reads::{item_at, set_item};
use base_lists::Memory;

/// So many parts have a filling in each lane as it was found, the others have variations.
const PLAIN: usize = 4;

impl Pool {
    /// Lays 0 for each source that the node of a place rests on.
    pub(crate) fn lay_under(&mut self, place: u32) -> Result<(), Memory> {
        self.start_walk();
        self.meet(place)?;
        'steps: for _ in 0..self.entries.len() {
            match self.open.pop() {
                None => return Ok(()),
                Some(next) => self.lay_at(next)?,
            }
        }
        Ok(())
    }

    /// Lays 0 for the node of a place, if it is a source, and meets what it reads.
    fn lay_at(&mut self, place: u32) -> Result<(), Memory> {
        let entry = self.entry(place);
        self.lay(entry, false);
        self.meet_chosen(entry, u16::MAX)
    }

    /// Lays 1 for some nodes.
    pub(crate) fn lay_all(&mut self, ones: &[u32]) {
        'ones: for node in ones {
            if let Some(place) = self.known(*node) {
                self.lay(self.entry(place), true);
            }
        }
    }

    /// Lays a bit for the node of an entry, if it is a source.
    fn lay(&mut self, entry: Entry, bit: bool) {
        if entry.is_source() {
            let place = entry.given as usize;
            let mut bits = item_at(&self.given, place, PoolBits::all(false));
            bits.set_lane(self.plain, bit);
            let varied = self.draws.draw_varied(equal_bits(bit));
            bits.set_part(self.varied, varied);
            set_item(&mut self.given, place, bits);
        }
    }

    /// A pass begins in which no node is right, and the next lanes are laid anew next.
    pub(crate) fn go_on(&mut self) {
        self.pass = self.pass.saturating_add(1);
        self.plain.mark = self.plain.mark.rotate_left(1);
        if self.plain.mark == 1 {
            self.plain.part = next_part(self.plain.part, 0, PLAIN);
        }
        self.varied = next_part(self.varied, PLAIN, PARTS);
    }
}

/// The part after one, from the end on the first again.
fn next_part(part: usize, first: usize, end: usize) -> usize {
    let next = part.saturating_add(1);
    if next < end { next } else { first }
}
