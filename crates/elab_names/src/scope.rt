//! What the names of a module under way stand for.

ghost use Rattle.std.specs.Prelude.{◌≡◌, ◌≤◌, ◌+◌, ◌^◌, bytes_eq};
ghost use Rattle.std.specs.Option.{ForSome};
ghost use Rattle.std.specs.Map.{lookup};
ghost use Rattle.elab_nets.specs.State.{net_count};
ghost use Rattle.elab_names.specs.NameMap.{entry_after, shared_from};

use crate::name_map::NameMap;
use crate::name_set::NameSet;
use base_lists::Items;
use design_circuit::NamePart;
use elab_nets::ElabErr;
use netlist_grammar::{NetKind, Word};
use std::alloc::{AllocError, Global};
use std::marker::Model;

/// What a name stands for: its kind and range, and the first of its nets.
#[derive(Clone, Copy)]
pub struct Entry {
    pub what: NetKind,
    pub range: Option<(u32, u32)>,
    pub base: u32,
}

/// The instances that lead to a module, its names, and the names of its instances. Names that the module declares are
/// shared by all of its instances: in each they stand for nets from another number on.
#[derive(Drop)]
pub struct Scope<'t> {
    prefix: Items<NamePart>,
    shared: Option<&'t NameMap<'t>>,
    base: u32,
    own: NameMap<'t>,
    instances: NameSet<'t>,
}

impl<'t> Model for Scope<'t> {
    ghost use Rattle.std.specs.Prelude.{◌++◌, ◌≤◌, ◌^◌};
    ghost use Rattle.elab_names.specs.Scope.{Scope, scope_of};
    ghost use Rattle.elab_names.specs.NameMap.{shared_from, HaveNets};

    ghost Value = { Scope };

    ghost view = { λ s. scope_of s.prefix (shared_from s.base s.shared ++ s.own) s.instances };

    ghost invariant = { λ s. (s.base ≤ 2 ^ 20) × HaveNets (shared_from s.base s.shared) };
}

impl<'t> Scope<'t> {
    ghost use Rattle.std.specs.Prelude.{◌≡◌, ◌≤◌, ◌+◌, ◌^◌, [], None, OnOk, IfSome};
    ghost use Rattle.elab_nets.specs.Outcome.{Gives};
    ghost use Rattle.elab_nets.specs.State.{net_count};
    ghost use Rattle.elab_names.specs.NameMap.{names_from, HaveNets};
    ghost use Rattle.elab_names.specs.Scope.{entry_of, with_name, named_instance};

    /// No names, behind these instances.
    pub fn new(alloc: Global, prefix: Items<NamePart>) -> Scope<'t>
        ensures { result ≡ record { prefix = prefix; names = []; instances = [] } }
    {
        Scope {
            prefix,
            shared: None,
            base: 0,
            own: NameMap::new(alloc),
            instances: NameSet::new(alloc),
        }
    }

    /// These names, with their nets behind so many, behind these instances.
    pub(crate) fn over(
        alloc: Global,
        prefix: Items<NamePart>,
        names: &'t NameMap<'t>,
        base: u32,
    ) -> Scope<'t>
        requires base { base ≤ 2 ^ 20 }
        requires few { HaveNets (names_from base names.now) }
        ensures { result ≡ record { prefix = prefix; names = names_from base names.now; instances = [] } }
    {
        Scope {
            prefix,
            shared: Some(names),
            base,
            own: NameMap::new(alloc),
            instances: NameSet::new(alloc),
        }
    }

    /// The instances that lead here.
    pub fn prefix(&self) -> &[NamePart]
        ensures { result.now ≡ self.now.prefix }
    {
        self.prefix.as_slice()
    }

    /// What a name stands for.
    pub fn find(&self, name: &[u8]) -> Option<Entry>
        ensures found { result ≡ entry_of self.now name.now }
        ensures few { IfSome result (λ e. e.base + net_count e.what e.range ≤ 2 ^ 20) }
    {
        match find_shared(self.shared, self.base, name) {
            Some(entry) => Some(entry),
            None => self.own.find(name),
        }
    }

    /// A name more.
    #[tactic(auto, using(crate::proofs::Naming::unknown_behind))]
    pub fn add(&mut self, name: &'t [u8], entry: Entry) -> Result<(), AllocError>
        requires new { entry_of self.old name.now ≡ None }
        requires few { entry.base + net_count entry.what entry.range ≤ 2 ^ 20 }
        ensures { OnOk result (self.new ≡ with_name name.now entry self.old) }
    {
        self.own.add(name, entry)?;
        Ok(())
    }

    /// An instance more. Refuses a name that an instance of the module has.
    pub fn add_instance(&mut self, word: &'t Word) -> Result<(), ElabErr>
        ensures { Gives (named_instance word.now self.old) result (λ _. self.new) }
    {
        if !self.instances.add(word.text.as_slice())? {
            return Err(ElabErr::BadName { at: word.at });
        }
        Ok(())
    }
}

/// What a shared name stands for, with its nets behind so many.
#[tactic(auto, using(crate::proofs::Naming::found_from))]
fn find_shared(shared: Option<&NameMap<'_>>, base: u32, name: &[u8]) -> Option<Entry>
    requires { base ≤ 2 ^ 20 }
    ensures { result ≡ lookup (bytes_eq name.now) (shared_from base shared.entry) }
{
    match shared {
        Some(names) => behind(base, names.find(name)),
        None => None,
    }
}

/// An entry with its nets behind so many.
fn behind(base: u32, entry: Option<Entry>) -> Option<Entry>
    requires base { base ≤ 2 ^ 20 }
    requires few { ForSome entry (λ e. e.base + net_count e.what e.range ≤ 2 ^ 20) }
    ensures { result ≡ entry_after base entry }
{
    match entry {
        Some(entry) => Some(Entry {
            what: entry.what,
            range: entry.range,
            base: base + entry.base,
        }),
        None => None,
    }
}
