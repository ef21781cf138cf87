//! Sets of names.

ghost use Rattle.std.specs.Prelude.{◌≡◌};

use indexmap::IndexSet;
use std::alloc::{AllocError, Global};
use std::marker::Model;

/// Names, each once, in the order in which they came. Names with the same bytes are one.
#[derive(Drop)]
pub struct NameSet<'t> {
    names: IndexSet<&'t [u8]>,
}

impl<'t> Model for NameSet<'t> {
    ghost use Rattle.std.specs.Prelude.{List, ℕ, map};
    ghost use denote.Ref.{Bor};

    ghost Value = { List (List ℕ) };

    ghost view = { λ s. map (λ (name : Bor (List ℕ)). name.now) s.names.keys };
}

impl<'t> NameSet<'t> {
    ghost use Rattle.std.specs.Prelude.{◌≡◌, ◌∷◌, ◌++◌, [], not, IfOk, if◌then◌else◌};
    ghost use Rattle.elab_names.specs.Sets.{has};

    /// No names.
    pub fn new(alloc: Global) -> NameSet<'t>
        ensures { result ≡ [] }
    {
        NameSet {
            names: IndexSet::new(alloc),
        }
    }

    /// Whether a name is among them.
    pub fn has(&self, name: &[u8]) -> bool
        ensures { result ≡ has self.now name.now }
    {
        self.names.contains(name)
    }

    /// A name more. Answers whether it is new.
    pub fn add(&mut self, name: &'t [u8]) -> Result<bool, AllocError>
        ensures new { IfOk result (λ fresh. fresh ≡ not (has self.old name.now)) }
        ensures names { IfOk result (λ fresh. self.new ≡ (if fresh then self.old ++ name.now ∷ [] else self.old)) }
    {
        Ok(self.names.insert(name)?)
    }
}
