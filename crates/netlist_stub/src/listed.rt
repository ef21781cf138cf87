//! The ports of a module.

ghost use Rattle.std.specs.Prelude.{◌≡◌};

use crate::heading::{Declared, Direction, Width};
use base_lists::Memory;
use netlist_trim::{Numbers, Spelled};
use std::alloc::Global;
use std::marker::Model;

/// The names of the header, and how names are declared.
#[derive(Drop)]
pub struct Listed<'t> {
    names: Names<'t>,
    numbers: Numbers<'t>,
    declared: Vec<Declared>,
}

impl<'t> Model for Listed<'t> {
    ghost use Rattle.netlist_stub.specs.Known as spec;

    ghost Value = { spec.Listed };

    ghost view = { λ l. record { names = l.names; numbers = l.numbers; declared = l.declared.items } };
}

impl<'t> Listed<'t> {
    ghost use Rattle.std.specs.Prelude.{◌≡◌, OnOk};
    ghost use Rattle.netlist_trim.specs.Shown.{seen};
    ghost use Rattle.netlist_stub.specs.Known as spec;

    /// No ports.
    pub fn new(alloc: Global) -> Listed<'t>
        ensures { result ≡ spec.unlisted }
    {
        Listed {
            names: Names::new(alloc),
            numbers: Numbers::new(alloc),
            declared: Vec::new(alloc),
        }
    }

    /// The names of the header.
    pub fn names(&self) -> &Names<'t>
        ensures { result.now ≡ self.now.names }
    {
        &self.names
    }

    /// How a name is declared first.
    pub fn declaration_of(&self, token: Spelled<'_>) -> Option<Declared>
        ensures { result ≡ spec.declaration_of self.now (seen token.entry) }
    {
        match self.numbers.find(token.name()) {
            Some(number) => self.declared.get(number).copied(),
            None => None,
        }
    }

    /// A name of the header more.
    pub fn name(&mut self, token: Spelled<'t>) -> Result<(), Memory>
        ensures { OnOk result (self.new ≡ spec.with_name (seen token.entry) self.old) }
    {
        self.names.push(token)
    }

    /// A name is declared, if there is a direction.
    pub fn declare(
        &mut self,
        direction: Option<Direction>,
        width: Width,
        token: Spelled<'t>,
    ) -> Result<(), Memory>
        ensures { OnOk result (self.new ≡ spec.declares direction width (seen token.entry) self.old) }
    {
        match direction {
            Some(direction) => self.add(token, Declared { direction, width }),
            None => Ok(()),
        }
    }

    fn add(&mut self, token: Spelled<'t>, declared: Declared) -> Result<(), Memory>
        ensures { OnOk result (self.new ≡ spec.with_declared (seen token.entry) declared self.old) }
    {
        self.numbers.add(token.name(), self.declared.len())?;
        self.declared.push(declared)?;
        Ok(())
    }
}

/// Tokens in order. Contracts see the list of them.
#[derive(Drop)]
pub struct Names<'t> {
    names: Vec<Spelled<'t>>,
}

impl<'t> Model for Names<'t> {
    ghost use Rattle.std.specs.Prelude.{List, map};
    ghost use Rattle.netlist_trim.specs.Shown.{Shown, seen};

    ghost Value = { List Shown };

    ghost view = { λ s. map seen s.names.items };
}

impl<'t> Names<'t> {
    ghost use Rattle.std.specs.Prelude.{◌≡◌, ◌∷◌, ◌++◌, [], map, OnOk};
    ghost use Rattle.netlist_trim.specs.Shown.{seen};

    fn new(alloc: Global) -> Names<'t>
        ensures { result ≡ [] }
    {
        Names {
            names: Vec::new(alloc),
        }
    }

    fn push(&mut self, token: Spelled<'t>) -> Result<(), Memory>
        ensures { OnOk result (self.new ≡ self.old ++ seen token.entry ∷ []) }
    {
        self.names.push(token)?;
        Ok(())
    }

    /// The tokens as a slice.
    pub fn as_slice(&self) -> &[Spelled<'t>]
        ensures { map seen result.now ≡ self.now }
    {
        self.names.as_slice()
    }
}
