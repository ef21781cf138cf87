//! Whether a module makes no net.

ghost use Rattle.std.specs.Prelude.{◌≡◌, [], IfOk, option_copied};
ghost use Rattle.elab_design.specs.Quiet as spec;
ghost use Rattle.elab_design.specs.Quiet.{OnYes};

use elab_names::NameSet;
use elab_prims::{Definition, Definitions};
use netlist_grammar::{Connections, Declare, InstanceItem, Item, Module, NetKind, Word};
use std::alloc::{AllocError, Global};

/// The highest level, which is that of the longest path.
pub const MOST_LEVEL: u32 = 32;

/// Whether a module has no ports, and its items are quiet below this level. Takes a place in a set for each instance.
pub fn is_quiet(
    alloc: Global,
    definitions: &Definitions<'_>,
    levels: &[u32],
    level: u32,
    unit: &Module,
) -> Result<bool, AllocError>
    ensures { IfOk result (λ yes. yes ≡ spec.is_quiet definitions.now levels.now level unit.now) }
{
    match unit.ports.as_slice() {
        [] => are_quiet(alloc, definitions, levels, level, unit.items.as_slice()),
        _ => Ok(false),
    }
}

/// Whether each item declares a `reg`, or is an instance that connects nothing, of a module of a lower level, with a
/// name of its own.
fn are_quiet(
    alloc: Global,
    definitions: &Definitions<'_>,
    levels: &[u32],
    level: u32,
    items: &[Item],
) -> Result<bool, AllocError>
    ensures { IfOk result (λ yes. yes ≡ spec.are_quiet definitions.now levels.now level [] items.now) }
{
    let mut names = NameSet::new(alloc);
    note_all(&mut names, definitions, levels, level, items)
}

/// Whether each item is quiet behind these names, which then have theirs.
fn note_all<'t>(
    names: &mut NameSet<'t>,
    definitions: &Definitions<'_>,
    levels: &[u32],
    level: u32,
    items: &'t [Item],
) -> Result<bool, AllocError>
    ensures { IfOk result (λ yes. yes ≡ spec.are_quiet definitions.now levels.now level names.old items.now) }
{
    'items: for item in items {
        if !note_item(names, definitions, levels, level, item)? {
            return Ok(false);
        }
    }
    Ok(true)
}

/// Whether an item is quiet behind these names, which then have its own.
fn note_item<'t>(
    names: &mut NameSet<'t>,
    definitions: &Definitions<'_>,
    levels: &[u32],
    level: u32,
    item: &'t Item,
) -> Result<bool, AllocError>
    ensures quiet { IfOk result
        (λ yes. yes ≡ spec.is_quiet_item definitions.now levels.now level names.old item.now) }
    ensures names { OnYes result (names.new ≡ spec.with_item names.old item.now) }
{
    match item {
        Item::Declare(declare) => Ok(is_quiet_declare(declare)),
        Item::Instance(instance) => note_instance(names, definitions, levels, level, instance),
        _ => Ok(false),
    }
}

fn is_quiet_declare(declare: &Declare) -> bool
    ensures { result ≡ spec.is_quiet_declare declare.now }
{
    matches!(declare.what, NetKind::Reg) && declare.range.is_none() && declare.value.is_none()
}

/// Whether an instance is quiet behind these names, which then have its own.
fn note_instance<'t>(
    names: &mut NameSet<'t>,
    definitions: &Definitions<'_>,
    levels: &[u32],
    level: u32,
    instance: &'t InstanceItem,
) -> Result<bool, AllocError>
    ensures quiet { IfOk result
        (λ yes. yes ≡ spec.is_quiet_instance definitions.now levels.now level names.old instance.now) }
    ensures names { OnYes result (names.new ≡ spec.with_named names.old instance.now.name) }
{
    if !is_below(definitions, levels, level, instance) || !connects_nothing(&instance.connections) {
        return Ok(false);
    }
    note_new(names, instance.name.as_ref())
}

/// Whether there is a name, and it isn't among these, which then have it.
fn note_new<'t>(names: &mut NameSet<'t>, name: Option<&'t Word>) -> Result<bool, AllocError>
    ensures new { IfOk result (λ yes. yes ≡ spec.is_new names.old (option_copied name.entry)) }
    ensures names { OnYes result (names.new ≡ spec.with_named names.old (option_copied name.entry)) }
{
    match name {
        Some(name) => names.add(name.text.as_slice()),
        None => Ok(false),
    }
}

pub fn is_below(
    definitions: &Definitions<'_>,
    levels: &[u32],
    level: u32,
    instance: &InstanceItem,
) -> bool
    ensures { result ≡ spec.is_instance_below definitions.now levels.now level instance.now }
{
    match definitions.find(instance.definition.text.as_slice()) {
        Some(Definition::Module(k)) => level_at(levels, k) < level,
        _ => false,
    }
}

/// The level of a module.
pub fn level_at(levels: &[u32], k: usize) -> u32
    ensures { result ≡ spec.level_at levels.now k }
{
    match levels.get(k) {
        Some(level) => *level,
        None => MOST_LEVEL + 1,
    }
}

pub fn connects_nothing(connections: &Connections) -> bool
    ensures { result ≡ spec.connects_nothing connections.now }
{
    match connections {
        Connections::Positional(list) => list.as_slice().is_empty(),
        Connections::Named(_) => false,
    }
}

/// Whether every module on the path has this level or a higher one, or none.
pub fn are_from(levels: &[u32], level: u32, path: &[usize]) -> bool
    ensures { result ≡ spec.are_from levels.now level path.now }
{
    'path: for k in path {
        if level_at(levels, *k) < level {
            return false;
        }
    }
    true
}
