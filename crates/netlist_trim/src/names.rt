//! Names in a row.

ghost use Rattle.std.specs.Prelude.{◌≡◌};

use std::alloc::{AllocFailed, Global};
use std::marker::Model;

/// Names in the order in which they came. Contracts see the list of them.
#[derive(Drop)]
pub struct Names<'t> {
    names: Vec<&'t [u8]>,
}

impl<'t> Model for Names<'t> {
    ghost use Rattle.std.specs.Prelude.{List, ℕ, map};
    ghost use denote.Ref.{Bor};

    ghost Value = { List (List ℕ) };

    ghost view = { λ s. map (λ (name : Bor (List ℕ)). name.now) s.names.items };
}

impl<'t> Names<'t> {
    ghost use Rattle.std.specs.Prelude.{◌≡◌, ◌∷◌, ◌++◌, [], List, ℕ, map, OnOk};
    ghost use denote.Ref.{Bor};

    /// No names.
    pub fn new(alloc: Global) -> Names<'t>
        ensures { result ≡ [] }
    {
        Names {
            names: Vec::new(alloc),
        }
    }

    /// A name more.
    pub fn push(&mut self, name: &'t [u8]) -> Result<(), AllocFailed<&'t [u8]>>
        ensures { OnOk result (self.new ≡ self.old ++ name.now ∷ []) }
    {
        self.names.push(name)
    }

    /// The names as a slice.
    pub fn as_slice(&self) -> &[&'t [u8]]
        ensures { map (λ (name : Bor (List ℕ)). name.now) result.now ≡ self.now }
    {
        self.names.as_slice()
    }
}
