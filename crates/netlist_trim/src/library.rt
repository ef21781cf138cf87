//! Definitions, found by name.

ghost use Rattle.std.specs.Prelude.{◌≡◌, [], OnOk};
ghost use Rattle.netlist_trim.specs.Library as spec;

use crate::definition::Definition;
use base_lists::Memory;
use indexmap::IndexMap;
use std::alloc::{AllocError, Global};
use std::marker::Model;

/// Definitions in order, and the first of each name. Takes a place in a map for each name.
#[derive(Drop)]
pub struct Library<'t> {
    definitions: Vec<Definition<'t>>,
    numbers: Numbers<'t>,
}

impl<'t> Model for Library<'t> {
    ghost use Rattle.std.specs.Prelude.{List};
    ghost use Rattle.netlist_trim.specs.Definition.{Defined};
    ghost use Rattle.netlist_trim.specs.Library.{Finds};

    ghost Value = { List Defined };

    ghost view = { λ l. l.definitions.items };

    ghost invariant = { λ l. Finds l.numbers l.definitions.items };
}

impl<'t> Library<'t> {
    ghost use Rattle.std.specs.Prelude.{◌≡◌, ◌<◌, ◌^◌, length, IfOk, IfSome};
    ghost use Rattle.netlist_trim.specs.Needed.{first_named};

    /// These definitions.
    pub fn new(alloc: Global, definitions: Vec<Definition<'t>>) -> Result<Library<'t>, Memory>
        ensures { IfOk result (λ library. library ≡ definitions.entry.items) }
    {
        let mut numbers = Numbers::new(alloc);
        add_all(&mut numbers, definitions.as_slice())?;
        Ok(Library {
            definitions,
            numbers,
        })
    }

    /// The definitions.
    pub fn definitions(&self) -> &[Definition<'t>]
        ensures { result.now ≡ self.now }
    {
        self.definitions.as_slice()
    }

    /// How many they are.
    pub fn count(&self) -> usize
        ensures is { result ≡ length self.now }
        ensures small { result < 2 ^ 63 }
    {
        self.definitions.len()
    }

    /// The number of the first definition of a name.
    pub fn find(&self, name: &[u8]) -> Option<usize>
        ensures found { result ≡ first_named self.now name.now }
        ensures there { IfSome result (λ k. k < length self.now) }
    {
        self.numbers.find(name)
    }
}

/// Names, each with the first number that it was given.
#[derive(Drop)]
pub struct Numbers<'t> {
    numbers: IndexMap<&'t [u8], usize>,
}

impl<'t> Model for Numbers<'t> {
    ghost use Rattle.std.specs.Prelude.{List, ℕ};
    ghost use Rattle.netlist_trim.specs.Library.{numbers_in};

    ghost Value = { List (List ℕ × ℕ) };

    ghost view = { λ n. numbers_in n.numbers.entries };
}

impl<'t> Numbers<'t> {
    ghost use Rattle.std.specs.Prelude.{◌≡◌, [], OnOk, bytes_eq};
    ghost use Rattle.std.specs.Map.{lookup};
    ghost use Rattle.netlist_trim.specs.Library.{with_number};

    /// No names.
    pub fn new(alloc: Global) -> Numbers<'t>
        ensures { result ≡ [] }
    {
        Numbers {
            numbers: IndexMap::new(alloc),
        }
    }

    /// The number of a name.
    pub fn find(&self, name: &[u8]) -> Option<usize>
        ensures { result ≡ lookup (bytes_eq name.now) self.now }
    {
        self.numbers.get(name).copied()
    }

    /// A name more. One that is there keeps its number.
    pub fn add(&mut self, name: &'t [u8], number: usize) -> Result<(), AllocError>
        ensures { OnOk result (self.new ≡ with_number name.now number self.old) }
    {
        if !self.numbers.contains_key(name) {
            self.numbers.insert(name, number)?;
        }
        Ok(())
    }
}

fn add_all<'t>(numbers: &mut Numbers<'t>, definitions: &[Definition<'t>]) -> Result<(), AllocError>
    requires { numbers.old ≡ [] }
    ensures { OnOk result (spec.Finds numbers.new definitions.now) }
{
    'definitions: for (number, definition) in definitions.iter().enumerate() {
        numbers.add(definition.name(), number)?;
    }
    Ok(())
}
