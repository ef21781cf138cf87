//! The definitions of a text, found by name.

ghost use Rattle.std.specs.Prelude.{◌≡◌, [], OnOk, IfOk};
ghost use Rattle.elab_prims.specs.Definitions as spec;

use crate::in_order::repeated_name;
use design_circuit::Bytes;
use elab_nets::ElabErr;
use indexmap::IndexMap;
use netlist_grammar::{Module, Primitive, Source};
use std::alloc::{AllocError, Global};
use std::marker::Model;

/// What a name defines: a module or a primitive, by its position among those of the text.
#[derive(Clone, Copy, Debug, PartialEq, Eq)]
pub enum Definition {
    Module(usize),
    Primitive(usize),
}

/// The modules and the primitives of a text, found by name.
#[derive(Drop)]
pub struct Definitions<'t> {
    source: &'t Source,
    numbers: Numbers<'t>,
}

impl<'t> Model for Definitions<'t> {
    ghost use Rattle.netlist_grammar.specs.declared.tree.Source.{Source};
    ghost use Rattle.elab_prims.specs.Definitions.{Finds};

    ghost Value = { Source };

    ghost view = { λ d. d.source.now };

    ghost invariant = { λ d. Finds d.numbers d.source.now.modules d.source.now.primitives };
}

impl<'t> Definitions<'t> {
    ghost use Rattle.std.specs.Prelude.{◌≡◌, IfSome};
    ghost use Rattle.elab_nets.specs.Outcome.{Gives};
    ghost use Rattle.elab_prims.specs.Definitions.{all_named, definition_of, IsThere};

    /// The definitions of a text, no two of one name. Takes a place in a map for each.
    pub fn new(alloc: Global, source: &'t Source) -> Result<Definitions<'t>, ElabErr>
        ensures { Gives (all_named source.now) result (λ d. d) }
    {
        if let Some(name) = repeated_name(alloc, source)? {
            return Err(ElabErr::TwoModules {
                name: Bytes::from_vec(name.to_vec(alloc)?),
            });
        }
        let mut numbers = Numbers::new(alloc);
        add_modules(&mut numbers, source.modules.as_slice())?;
        add_primitives(
            &mut numbers,
            source.modules.as_slice(),
            source.primitives.as_slice(),
        )?;
        Ok(Definitions { source, numbers })
    }

    /// The text.
    pub fn source(&self) -> &'t Source
        ensures { result.now ≡ self.now }
    {
        self.source
    }

    /// What a name defines.
    pub fn find(&self, name: &[u8]) -> Option<Definition>
        ensures found { result ≡ definition_of self.now name.now }
        ensures there { IfSome result (λ d. IsThere self.now d) }
    {
        self.numbers.find(name)
    }
}

/// Names with what they define.
#[derive(Drop)]
struct Numbers<'t> {
    numbers: IndexMap<&'t [u8], Definition>,
}

impl<'t> Model for Numbers<'t> {
    ghost use Rattle.std.specs.Prelude.{List, ℕ};
    ghost use Rattle.elab_prims.specs.declared.definitions.Definition.{Definition};
    ghost use Rattle.elab_prims.specs.Definitions.{numbers_in};

    ghost Value = { List (List ℕ × Definition) };

    ghost view = { λ n. numbers_in n.numbers.entries };
}

impl<'t> Numbers<'t> {
    ghost use Rattle.std.specs.Prelude.{◌≡◌, [], OnOk, bytes_eq};
    ghost use Rattle.std.specs.Map.{lookup};
    ghost use Rattle.elab_prims.specs.Definitions.{with_number};

    fn new(alloc: Global) -> Numbers<'t>
        ensures { result ≡ [] }
    {
        Numbers {
            numbers: IndexMap::new(alloc),
        }
    }

    fn find(&self, name: &[u8]) -> Option<Definition>
        ensures { result ≡ lookup (bytes_eq name.now) self.now }
    {
        self.numbers.get(name).copied()
    }

    /// A name more. One that is there keeps what it defines.
    fn add(&mut self, name: &'t [u8], definition: Definition) -> Result<(), AllocError>
        ensures { OnOk result (self.new ≡ with_number name.now definition self.old) }
    {
        if !self.numbers.contains_key(name) {
            self.numbers.insert(name, definition)?;
        }
        Ok(())
    }
}

fn add_modules<'t>(numbers: &mut Numbers<'t>, modules: &'t [Module]) -> Result<(), AllocError>
    requires { numbers.old ≡ [] }
    ensures { OnOk result (spec.Finds numbers.new modules.now []) }
{
    'modules: for (number, module) in modules.iter().enumerate() {
        numbers.add(module.name.text.as_slice(), Definition::Module(number))?;
    }
    Ok(())
}

fn add_primitives<'t>(
    numbers: &mut Numbers<'t>,
    modules: &[Module],
    primitives: &'t [Primitive],
) -> Result<(), AllocError>
    requires { spec.Finds numbers.old modules.now [] }
    ensures { OnOk result (spec.Finds numbers.new modules.now primitives.now) }
{
    'primitives: for (number, primitive) in primitives.iter().enumerate() {
        numbers.add(
            primitive.name.text.as_slice(),
            Definition::Primitive(number),
        )?;
    }
    Ok(())
}
