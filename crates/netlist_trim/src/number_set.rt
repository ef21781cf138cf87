//! Sets of numbers.

ghost use Rattle.std.specs.Prelude.{◌≡◌};

use indexmap::IndexSet;
use std::alloc::{AllocError, Global};
use std::marker::Model;

/// Numbers, each once, in the order in which they came. Contracts see the list of them.
#[derive(Drop)]
pub struct NumberSet {
    numbers: IndexSet<usize>,
}

impl Model for NumberSet {
    ghost use Rattle.std.specs.Prelude.{List, ℕ, nat_eq};
    ghost use Rattle.indexmap.specs.IndexSet.{IsUnique};

    ghost Value = { List ℕ };

    ghost view = { λ s. s.numbers.keys };

    ghost invariant = { λ s. IsUnique nat_eq s.numbers };
}

impl NumberSet {
    ghost use Rattle.std.specs.Prelude.{◌≡◌, ◌∷◌, ◌++◌, [], OnOk, length, nat_eq, slice_get};
    ghost use Rattle.std.specs.List.{IsDistinct, list_any};
    ghost use Rattle.indexmap.specs.IndexSet.{insert_key};

    /// No numbers.
    pub fn new(alloc: Global) -> NumberSet
        ensures { result ≡ [] }
    {
        NumberSet {
            numbers: IndexSet::new(alloc),
        }
    }

    /// Whether a number is among them.
    pub fn has(&self, number: usize) -> bool
        ensures { result ≡ list_any (nat_eq number) self.now }
    {
        self.numbers.contains(&number)
    }

    /// The one of this position.
    pub fn get(&self, position: usize) -> Option<usize>
        ensures is { result ≡ slice_get self.now position }
        ensures distinct { IsDistinct nat_eq self.now }
    {
        let _ = self.numbers.len();
        self.numbers.get_index(position).copied()
    }

    /// A number more, unless it is there.
    pub fn add(&mut self, number: usize) -> Result<(), AllocError>
        ensures { OnOk result (self.new ≡ insert_key nat_eq self.old number) }
    {
        self.numbers.insert(number)?;
        Ok(())
    }
}
