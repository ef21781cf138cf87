//! The items of a module, and its instances.

ghost use Rattle.std.specs.Prelude.{◌≡◌, ◌<◌, ◌++◌, ◌∷◌, [], Ok, Some, length, true};
ghost use Rattle.elab_nets.specs.Outcome.{Gives, or_refuse};
ghost use Rattle.elab_prims.specs.Definitions.{definition_of};
ghost use Rattle.elab_prims.specs.declared.definitions.Definition.TheVariants as definition;
ghost use Rattle.elab_nets.specs.declared.fault.ElabErr.TheVariants.{PortMismatch};
ghost use Rattle.elab_tree.specs.Elaborate as spec;
ghost use Rattle.elab_tree.specs.Library.{module_of};
ghost use Rattle.elab_design.specs.Held.{IsPassing};
ghost use Rattle.elab_design.specs.Busy.{state_of};

use crate::elaborator::Elaborator;
use crate::library::Library;
use crate::path::{Path, copy_of};
use elab_gates::{add_assign, add_gate, add_value};
use elab_joins::join;
use elab_names::Here;
use elab_nets::ElabErr;
use elab_prims::Definition;
use netlist_grammar::{InstanceItem, Item, Word};

/// The items of the module at a position once it is open at the end of this path, where the path before it may have
/// `room` modules more.
#[cycle(instances)]
fn add_items<'t>(
    elaborator: &mut Elaborator<'t>,
    modules: &[usize],
    room: usize,
    here: &mut Here<'t>,
    k: usize,
) -> Result<(), ElabErr>
    requires some { 0 < room }
    requires within { k < length elaborator.old.source.modules }
    requires new { here.old.scope.instances ≡ [] }
    ensures made { let items = (module_of elaborator.old k).items in
        Gives (state_of (spec.body elaborator.old room modules.now items here.old)) result (λ _. here.new.state) }
    ensures same { elaborator.new ≡ elaborator.old }
{
    let items = elaborator.library().to_do(modules, room, k);
    let path = Path {
        modules,
        room: room - 1,
    };
    'items: for item in items {
        let _ = here.nets.count();
        add_item(elaborator, &path, here, item)?;
    }
    let _ = here.nets.count();
    Ok(())
}

/// An item of a module at the end of this path.
#[cycle(instances)]
fn add_item<'t>(
    elaborator: &mut Elaborator<'t>,
    path: &Path<'_>,
    here: &mut Here<'t>,
    item: &'t Item,
) -> Result<(), ElabErr>
    ensures made { let instance = spec.instance_item elaborator.old path.now.modules.now path.now.room in
        Gives (spec.item_with instance item.now here.old) result (λ _. here.new) }
    ensures same { elaborator.new ≡ elaborator.old }
{
    match item {
        Item::Declare(declare) => add_value(here, declare),
        Item::Gate(gate) => add_gate(here, gate),
        Item::Assign(left, right) => add_assign(here, left, right),
        Item::Instance(instance) => add_instance(elaborator, path, here, instance),
    }
}

/// An instance in a module at the end of this path.
#[cycle(instances)]
fn add_instance<'t>(
    elaborator: &mut Elaborator<'t>,
    path: &Path<'_>,
    here: &mut Here<'t>,
    item: &'t InstanceItem,
) -> Result<(), ElabErr>
    ensures made { let instance = spec.instance_item elaborator.old path.now.modules.now path.now.room in
        Gives (instance item.now here.old) result (λ _. here.new) }
    ensures same { elaborator.new ≡ elaborator.old }
{
    let name = item.definition.text.as_slice();
    match elaborator.library().find(name) {
        None => Err(ElabErr::NoModule {
            name: copy_of(here.alloc, name)?,
        }),
        Some(Definition::Primitive(k)) => elaborator.add_primitive(here, item, k),
        Some(Definition::Module(k)) => add_module(elaborator, path, here, item, k),
    }
}

/// An instance of the module at a position.
#[cycle(instances)]
fn add_module<'t>(
    elaborator: &mut Elaborator<'t>,
    path: &Path<'_>,
    here: &mut Here<'t>,
    item: &'t InstanceItem,
    k: usize,
) -> Result<(), ElabErr>
    requires found { definition_of elaborator.old.source item.now.definition.text ≡ Some (definition.Module k) }
    requires within { k < length elaborator.old.source.modules }
    ensures made { let instance = spec.instance_item elaborator.old path.now.modules.now path.now.room in
        Gives (instance item.now here.old) result (λ _. here.new) }
    ensures same { elaborator.new ≡ elaborator.old }
{
    path.enter(here.alloc, item.definition.text.as_slice(), k)?;
    let library = elaborator.library();
    if library.passes_over(path.modules, path.room, k, item) {
        return pass(library, path, here, item, k);
    }
    add_inner(elaborator, path, here, item, k)
}

/// An instance of the module at a position, which isn't passed over.
#[cycle(instances)]
fn add_inner<'t>(
    elaborator: &mut Elaborator<'t>,
    path: &Path<'_>,
    here: &mut Here<'t>,
    item: &'t InstanceItem,
    k: usize,
) -> Result<(), ElabErr>
    requires some { 0 < path.now.room }
    requires entered { spec.entered path.now.modules.now path.now.room item.now.definition.text k ≡ Ok k }
    requires found { definition_of elaborator.old.source item.now.definition.text ≡ Some (definition.Module k) }
    requires within { k < length elaborator.old.source.modules }
    ensures made { let instance = spec.instance_item elaborator.old path.now.modules.now path.now.room in
        Gives (instance item.now here.old) result (λ _. here.new) }
    ensures same { elaborator.new ≡ elaborator.old }
{
    let outer = join(here, elaborator.library().module(k), item)?;
    add_below(elaborator, path, here, k)?;
    here.scope = outer;
    Ok(())
}

/// The items of the module at a position once it is open behind this path.
#[cycle(instances)]
pub fn add_below<'t>(
    elaborator: &mut Elaborator<'t>,
    path: &Path<'_>,
    here: &mut Here<'t>,
    k: usize,
) -> Result<(), ElabErr>
    requires some { 0 < path.now.room }
    requires within { k < length elaborator.old.source.modules }
    requires new { here.old.scope.instances ≡ [] }
    ensures made { let items = (module_of elaborator.old k).items in let modules = path.now.modules.now ++ k ∷ [] in
        Gives (state_of (spec.body elaborator.old path.now.room modules items here.old)) result (λ _. here.new.state) }
    ensures same { elaborator.new ≡ elaborator.old }
{
    let modules = path.extended(here.alloc, k)?;
    add_items(elaborator, modules.as_slice(), path.room, here, k)
}

/// Passes an instance over: its name is taken.
fn pass<'t>(
    library: &'t Library<'t>,
    path: &Path<'_>,
    here: &mut Here<'t>,
    item: &'t InstanceItem,
    k: usize,
) -> Result<(), ElabErr>
    requires passes { IsPassing library.now.source path.now.modules.now path.now.room k item.now true }
    requires entered { spec.entered path.now.modules.now path.now.room item.now.definition.text k ≡ Ok k }
    requires found { definition_of library.now.source item.now.definition.text ≡ Some (definition.Module k) }
    ensures { let instance = spec.instance_item library.now path.now.modules.now path.now.room in
        Gives (instance item.now here.old) result (λ _. here.new) }
{
    let _ = here.nets.count();
    let name = instance_name(item)?;
    here.scope.add_instance(name)?;
    Ok(())
}

fn instance_name(item: &InstanceItem) -> Result<&Word, ElabErr>
    ensures { Gives (or_refuse item.now.name (PortMismatch item.now.definition.at)) result (λ name. name.now) }
{
    match &item.name {
        Some(name) => Ok(name),
        None => Err(ElabErr::PortMismatch {
            at: item.definition.at,
        }),
    }
}
