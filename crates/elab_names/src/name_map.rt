//! What names stand for.

ghost use Rattle.std.specs.Prelude.{◌≡◌};

use crate::scope::Entry;
use indexmap::IndexMap;
use std::alloc::{AllocError, Global};
use std::marker::Model;

/// Names with what they stand for, in the order in which they came. Names with the same bytes are one.
#[derive(Drop)]
pub struct NameMap<'t> {
    names: IndexMap<&'t [u8], Entry>,
}

impl<'t> Model for NameMap<'t> {
    ghost use Rattle.std.specs.Prelude.{List, ℕ};
    ghost use Rattle.elab_names.specs.declared.scope.Entry.{Entry};
    ghost use Rattle.elab_names.specs.NameMap.{names_in, HaveNets};

    ghost Value = { List (List ℕ × Entry) };

    ghost view = { λ m. names_in m.names.entries };

    ghost invariant = { λ m. HaveNets (names_in m.names.entries) };
}

impl<'t> NameMap<'t> {
    ghost use Rattle.std.specs.Prelude.{◌≡◌, ◌≤◌, ◌+◌, ◌^◌, ◌++◌, ◌∷◌, [], None, OnOk, IfSome, bytes_eq};
    ghost use Rattle.std.specs.Map.{lookup};
    ghost use Rattle.elab_nets.specs.State.{net_count};

    /// No names.
    pub fn new(alloc: Global) -> NameMap<'t>
        ensures { result ≡ [] }
    {
        NameMap {
            names: IndexMap::new(alloc),
        }
    }

    /// What a name stands for.
    pub fn find(&self, name: &[u8]) -> Option<Entry>
        ensures found { result ≡ lookup (bytes_eq name.now) self.now }
        ensures few { IfSome result (λ e. e.base + net_count e.what e.range ≤ 2 ^ 20) }
    {
        self.names.get(name).copied()
    }

    /// A name more.
    pub fn add(&mut self, name: &'t [u8], entry: Entry) -> Result<(), AllocError>
        requires new { lookup (bytes_eq name.now) self.old ≡ None }
        requires few { entry.base + net_count entry.what entry.range ≤ 2 ^ 20 }
        ensures { OnOk result (self.new ≡ self.old ++ (name.now, entry) ∷ []) }
    {
        self.names.insert(name, entry)?;
        Ok(())
    }
}
