//! A module that is to be opened for each of its instances.

ghost use Rattle.std.specs.Prelude.{◌≡◌, Ok, IfOk, OnOk, [], ◌∷◌, ◌++◌, IsTrue, bytes_eq};
ghost use Rattle.std.specs.Map.{lookup};
ghost use Rattle.elab_names.specs.Names.{ports_checked, has_direction};
ghost use Rattle.elab_names.specs.Scope.{scope_of};
ghost use Rattle.elab_names.specs.Outline as spec;
ghost use Rattle.elab_names.specs.Outline.{AreOutlined, items_in};

use crate::declare::{is_directed, open_module};
use crate::here::Here;
use crate::name_map::NameMap;
use crate::name_set::NameSet;
use crate::outline::{Outline, note_all};
use crate::ports::PortNames;
use crate::scope::Scope;
use base_lists::Items;
use design_circuit::NamePart;
use elab_nets::{ElabErr, MOST_NETS, Nets};
use netlist_grammar::{Item, Module, Word};
use std::alloc::{AllocError, Global};
use std::marker::Model;
use std::mem;

/// A module with what its declarations and ports come to, worked out once: there is no outline where they are refused.
/// Takes memory for the names that it declares.
#[derive(Drop)]
pub struct Declarations<'t> {
    unit: &'t Module,
    ports: PortNames<'t>,
    outline: Option<Outline<'t>>,
    left: Vec<&'t Item>,
}

impl<'t> Model for Declarations<'t> {
    ghost use Rattle.std.specs.Prelude.{◌≡◌};
    ghost use Rattle.netlist_grammar.specs.declared.tree.Module.{Module};
    ghost use Rattle.elab_names.specs.Outline.{IsHeld};

    ghost Value = { Module };

    ghost view = { λ d. d.unit.now };

    ghost invariant = { λ d. IsHeld d.unit.now d.ports d.outline d.left.items };
}

impl<'t> Declarations<'t> {
    ghost use Rattle.std.specs.Prelude.{◌≡◌, [], IfOk};
    ghost use Rattle.elab_nets.specs.Outcome.{Gives};
    ghost use Rattle.elab_names.specs.Scope.{scope_of};
    ghost use Rattle.elab_names.specs.Here.{here_of};
    ghost use Rattle.elab_names.specs.Names.{opened};
    ghost use Rattle.elab_names.specs.Outline.{items_in, left_of};

    /// What the declarations of a module come to.
    pub fn new(alloc: Global, unit: &'t Module) -> Result<Declarations<'t>, AllocError>
        ensures { IfOk result (λ d. d ≡ unit.now) }
    {
        let ports = PortNames::new(alloc, unit.ports.as_slice())?;
        let outline = outline_of(alloc, &ports, unit.items.as_slice())?;
        let left = left_of(alloc, unit.items.as_slice())?;
        Ok(Declarations {
            unit,
            ports,
            outline,
            left,
        })
    }

    /// The ports of the module, by name.
    pub fn ports(&self) -> &PortNames<'t>
        ensures { result.now ≡ self.now.ports }
    {
        &self.ports
    }

    /// What is left of the items once the module is open: of its declarations those that have a value.
    pub fn left(&self) -> &[&'t Item]
        ensures { items_in result.now ≡ left_of self.now.items }
    {
        self.left.as_slice()
    }

    /// Opens the module behind these instances: makes the nets that it declares, and answers its names. Takes memory
    /// for the nets, and for names only where a declaration or a port is refused.
    #[tactic(auto, using(crate::proofs::Outlining::counted))]
    pub fn open(
        &'t self,
        alloc: Global,
        prefix: Items<NamePart>,
        nets: &mut Nets,
    ) -> Result<Scope<'t>, ElabErr>
        ensures { let here = here_of (scope_of prefix [] []) nets.old in
            Gives (opened self.now.ports self.now.items here) result (λ scope. here_of scope nets.new) }
    {
        match &self.outline {
            Some(outline) if outline.count() <= MOST_NETS - nets.count() => {
                let scope = outline.open(alloc, prefix, nets)?;
                Ok(scope)
            }
            _ => self.open_each(alloc, prefix, nets),
        }
    }

    /// The same declaration by declaration, up to the first that is refused.
    fn open_each(
        &'t self,
        alloc: Global,
        prefix: Items<NamePart>,
        nets: &mut Nets,
    ) -> Result<Scope<'t>, ElabErr>
        ensures { let here = here_of (scope_of prefix [] []) nets.old in
            Gives (opened self.now.ports self.now.items here) result (λ scope. here_of scope nets.new) }
    {
        let mut here = Here {
            alloc,
            scope: Scope::new(alloc, prefix),
            nets: mem::replace(nets, Nets::new(alloc)),
        };
        open_module(&mut here, &self.ports, self.unit.items.as_slice())?;
        let Here {
            alloc: _,
            scope,
            nets: made,
        } = here;
        *nets = made;
        Ok(scope)
    }
}

fn left_of<'t>(alloc: Global, items: &'t [Item]) -> Result<Vec<&'t Item>, AllocError>
    ensures { IfOk result (λ left. items_in left.items ≡ spec.left_of items.now) }
{
    let mut left = Vec::new(alloc);
    'items: for item in items {
        push_left(&mut left, item)?;
    }
    Ok(left)
}

#[tactic(auto, using(crate::proofs::Outlining::items_push))]
fn push_left<'t>(left: &mut Vec<&'t Item>, item: &'t Item) -> Result<(), AllocError>
    ensures { OnOk result (items_in left.new.items ≡ items_in left.old.items ++ spec.left_of (item.now ∷ [])) }
{
    if is_left(item) {
        left.push(item)?;
    }
    Ok(())
}

fn is_left(item: &Item) -> bool
    ensures { result ≡ spec.is_left item.now }
{
    match item {
        Item::Declare(declare) => declare.value.is_some(),
        _ => true,
    }
}

/// What declarations and ports come to; none where they are refused.
fn outline_of<'t>(
    alloc: Global,
    ports: &PortNames<'_>,
    items: &'t [Item],
) -> Result<Option<Outline<'t>>, AllocError>
    ensures { IfOk result (λ outline. AreOutlined ports.now items.now outline) }
{
    let mut outline = Outline::new(alloc);
    if !note_all(&mut outline, ports, items)?
        || !are_ports(alloc, outline.names(), ports.ports())?
    {
        return Ok(None);
    }
    Ok(Some(outline))
}

/// Whether each port is named once and has a direction.
fn are_ports(alloc: Global, names: &NameMap<'_>, ports: &[Word]) -> Result<bool, AllocError>
    ensures { let scope = scope_of [] names.now [] in
        IfOk result (λ yes. IsTrue yes → ports_checked scope [] ports.now ≡ Ok scope) }
{
    let mut seen = NameSet::new(alloc);
    'ports: for port in ports {
        if !is_port(names, port) || !seen.add(port.text.as_slice())? {
            return Ok(false);
        }
    }
    Ok(true)
}

fn is_port(names: &NameMap<'_>, port: &Word) -> bool
    ensures { result ≡ has_direction (lookup (bytes_eq port.now.text) names.now) }
{
    match names.find(port.text.as_slice()) {
        Some(entry) => is_directed(entry.what),
        None => false,
    }
}
