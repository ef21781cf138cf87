//! Which gates read a variable, as linked lists.

use base_lists::Memory;
use sat_watches::{Variable, item_at, narrow, set_item};
use std::alloc::Global;

/// A gate that reads a variable, and the entry of the next one.
#[derive(Clone, Copy, Debug)]
pub(crate) struct Reader {
    pub(crate) gate: Variable,
    pub(crate) next: Option<u32>,
}

/// The readers of each variable. Takes 8 bytes a variable, and 12 an entry.
#[derive(Drop)]
pub(crate) struct Readers {
    first: Vec<Option<u32>>,
    entries: Vec<Reader>,
}

impl Readers {
    /// No variables.
    pub(crate) fn new(alloc: Global) -> Readers {
        Readers {
            first: Vec::new(alloc),
            entries: Vec::new(alloc),
        }
    }

    /// No variables any more.
    pub(crate) fn clear(&mut self) {
        self.first.clear();
        self.entries.clear();
    }

    /// One more variable, which nothing reads.
    pub(crate) fn add(&mut self) -> Result<(), Memory> {
        self.first.push(None)?;
        Ok(())
    }

    /// A gate reads a variable.
    pub(crate) fn note(&mut self, variable: Variable, gate: Variable) -> Result<(), Memory> {
        let entry = narrow(self.entries.len());
        let next = self.first(variable);
        self.entries.push(Reader { gate, next })?;
        set_item(&mut self.first, variable.index(), Some(entry));
        Ok(())
    }

    /// How many entries there are.
    pub(crate) fn len(&self) -> usize {
        self.entries.len()
    }

    /// The first entry of a variable.
    pub(crate) fn first(&self, variable: Variable) -> Option<u32> {
        item_at(&self.first, variable.index(), None)
    }

    /// The reader of an entry.
    pub(crate) fn reader(&self, entry: u32) -> Reader {
        let none = Reader {
            gate: Variable { number: 0 },
            next: None,
        };
        item_at(&self.entries, entry as usize, none)
    }
}
