//! From which learned clauses a learned clause came.

use base_lists::Memory;
use sat_watches::{item_at, narrow};
use std::alloc::Global;

/// For each learned clause, by how many came before, the numbers of the learned clauses that it was made from, one
/// after the other. Takes 4 bytes for each of both.
#[derive(Drop)]
pub(crate) struct Origins {
    numbers: Vec<u32>,
    ends: Vec<u32>,
}

impl Origins {
    /// No clause is learned.
    pub(crate) fn new(alloc: Global) -> Origins {
        Origins {
            numbers: Vec::new(alloc),
            ends: Vec::new(alloc),
        }
    }

    /// None any more.
    pub(crate) fn clear(&mut self) {
        self.numbers.clear();
        self.ends.clear();
    }

    /// The clause that is learned next is made from this one too.
    pub(crate) fn note(&mut self, number: u32) -> Result<(), Memory> {
        self.numbers.push(number)?;
        Ok(())
    }

    /// It is made from those that were noted.
    pub(crate) fn close(&mut self) -> Result<(), Memory> {
        let end = narrow(self.numbers.len());
        self.ends.push(end)?;
        Ok(())
    }

    /// How many are learned.
    pub(crate) fn len(&self) -> usize {
        self.ends.len()
    }

    /// Where the numbers of a learned clause begin.
    fn start(&self, learned: usize) -> usize {
        if learned == 0 {
            return 0;
        }
        item_at(&self.ends, learned - 1, 0) as usize
    }

    /// Marks those that a learned clause was made from.
    pub(crate) fn mark(&self, learned: usize, marks: &mut [bool]) {
        let end = item_at(&self.ends, learned, 0) as usize;
        'numbers: for k in self.start(learned)..end {
            let number = item_at(&self.numbers, k, 0) as usize;
            if number < marks.len() {
                marks[number] = true;
            }
        }
    }
}
