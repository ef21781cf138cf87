//! The items of a module that do something at each of its instances.

ghost use Rattle.std.specs.Prelude.{◌≡◌, [], ◌∷◌, ◌++◌, IfOk, OnOk, option_copied};
ghost use Rattle.elab_prims.specs.Definitions.{definition_of};
ghost use Rattle.elab_names.specs.Outline.{items_in};
ghost use Rattle.elab_design.specs.Quiet.{OnYes, with_named};
ghost use Rattle.elab_design.specs.Busy as spec;
ghost use Rattle.elab_design.specs.Busy.{is_apart, counted_instance as spec_name_of};

use crate::quiet::{MOST_LEVEL, connects_nothing, is_below, level_at};
use elab_names::NameSet;
use elab_prims::{Definition, Definitions};
use netlist_grammar::{InstanceItem, Item, Word};
use std::alloc::{AllocError, Global};
use std::marker::Model;

/// A level, and the items that aren't idle below it. Takes memory for a reference to each of these.
#[derive(Drop)]
pub struct Busy<'t> {
    level: u32,
    items: Vec<&'t Item>,
}

impl<'t> Model for Busy<'t> {
    ghost use Rattle.elab_names.specs.Outline.{items_in};
    ghost use Rattle.elab_design.specs.Busy.{Busy, busy_from};

    ghost Value = { Busy };

    ghost view = { λ b. busy_from b.level (items_in b.items.items) };
}

impl<'t> Busy<'t> {
    ghost use Rattle.std.specs.Prelude.{◌≡◌, IfOk};
    ghost use Rattle.elab_names.specs.Outline.{items_in};
    ghost use Rattle.elab_design.specs.Busy.{busy_in};

    /// The busy ones of a module's items.
    pub fn new(
        alloc: Global,
        definitions: &Definitions<'_>,
        levels: &[u32],
        items: &[&'t Item],
    ) -> Result<Busy<'t>, AllocError>
        ensures { IfOk result (λ b. b ≡ busy_in definitions.now levels.now (items_in items.now)) }
    {
        let level = idle_level(alloc, definitions, levels, items)?;
        let items = busy_of(alloc, definitions, levels, level, items)?;
        Ok(Busy { level, items })
    }

    /// The level below which the other items are idle, 0 where there are none.
    pub fn level(&self) -> u32
        ensures { result ≡ self.now.level }
    {
        self.level
    }

    /// The items.
    pub fn items(&self) -> &[&'t Item]
        ensures { items_in result.now ≡ self.now.items }
    {
        self.items.as_slice()
    }
}

/// The level at which all items have become idle that ever do, 0 where the name of an instance comes twice.
fn idle_level(
    alloc: Global,
    definitions: &Definitions<'_>,
    levels: &[u32],
    items: &[&Item],
) -> Result<u32, AllocError>
    ensures { IfOk result (λ level. level ≡ spec.idle_level definitions.now levels.now (items_in items.now)) }
{
    if !are_apart(alloc, definitions, items)? {
        return Ok(0);
    }
    Ok(all_idle_from(definitions, levels, items))
}

/// Whether no two instances of modules have one name.
fn are_apart(
    alloc: Global,
    definitions: &Definitions<'_>,
    items: &[&Item],
) -> Result<bool, AllocError>
    ensures { IfOk result (λ yes. yes ≡ spec.are_apart definitions.now [] (items_in items.now)) }
{
    let mut names = NameSet::new(alloc);
    are_new(&mut names, definitions, items)
}

/// Whether no two instances of modules have one name, and none has one of these, which then have theirs.
fn are_new<'t>(
    names: &mut NameSet<'t>,
    definitions: &Definitions<'_>,
    items: &[&'t Item],
) -> Result<bool, AllocError>
    ensures { IfOk result (λ yes. yes ≡ spec.are_apart definitions.now names.old (items_in items.now)) }
{
    'items: for item in items {
        if !note_name(names, name_of(definitions, item))? {
            return Ok(false);
        }
    }
    Ok(true)
}

/// Whether a name, where there is one, isn't among these, which then have it.
fn note_name<'t>(names: &mut NameSet<'t>, name: Option<&'t Word>) -> Result<bool, AllocError>
    ensures apart { IfOk result (λ yes. yes ≡ is_apart names.old (option_copied name.entry)) }
    ensures names { OnYes result (names.new ≡ with_named names.old (option_copied name.entry)) }
{
    match name {
        Some(name) => names.add(name.text.as_slice()),
        None => Ok(true),
    }
}

/// The name of an instance of a module.
fn name_of<'t>(definitions: &Definitions<'_>, item: &'t Item) -> Option<&'t Word>
    ensures { option_copied result ≡ spec_name_of definitions.now item.now }
{
    match item {
        Item::Instance(instance) => counted_name(definitions, instance),
        _ => None,
    }
}

fn counted_name<'t>(definitions: &Definitions<'_>, instance: &'t InstanceItem) -> Option<&'t Word>
    ensures { let definition = definition_of definitions.now instance.now.definition.text in
        option_copied result ≡ spec.counted_name definition instance.now.name }
{
    match definitions.find(instance.definition.text.as_slice()) {
        Some(Definition::Module(_)) => instance.name.as_ref(),
        _ => None,
    }
}

/// The level at which all items have become idle that ever do.
fn all_idle_from(definitions: &Definitions<'_>, levels: &[u32], items: &[&Item]) -> u32
    ensures { result ≡ spec.all_idle_from definitions.now levels.now (items_in items.now) }
{
    let mut level = 0;
    'items: for item in items {
        level = level.max(idle_from(definitions, levels, item));
    }
    level
}

/// The level at which an item becomes idle, 0 where it never does.
fn idle_from(definitions: &Definitions<'_>, levels: &[u32], item: &Item) -> u32
    ensures { result ≡ spec.idle_from definitions.now levels.now item.now }
{
    match item {
        Item::Instance(instance)
            if instance.name.is_some() && connects_nothing(&instance.connections) => {
            level_above(definitions, levels, instance)
        }
        _ => 0,
    }
}

/// One above the level of an instance's module, 0 where it has none.
fn level_above(definitions: &Definitions<'_>, levels: &[u32], instance: &InstanceItem) -> u32
    ensures { let definition = definition_of definitions.now instance.now.definition.text in
        result ≡ spec.level_above levels.now definition }
{
    match definitions.find(instance.definition.text.as_slice()) {
        Some(Definition::Module(k)) => above(level_at(levels, k)),
        _ => 0,
    }
}

fn above(level: u32) -> u32
    ensures { result ≡ spec.above level }
{
    if level <= MOST_LEVEL { level + 1 } else { 0 }
}

fn busy_of<'t>(
    alloc: Global,
    definitions: &Definitions<'_>,
    levels: &[u32],
    level: u32,
    items: &[&'t Item],
) -> Result<Vec<&'t Item>, AllocError>
    ensures { let wanted = spec.busy_of definitions.now levels.now level (items_in items.now) in
        IfOk result (λ busy. items_in busy.items ≡ wanted) }
{
    let mut busy = Vec::new(alloc);
    'items: for item in items {
        push_busy(&mut busy, definitions, levels, level, *item)?;
    }
    Ok(busy)
}

#[tactic(auto, using(crate::proofs::Choosing::items_push))]
fn push_busy<'t>(
    busy: &mut Vec<&'t Item>,
    definitions: &Definitions<'_>,
    levels: &[u32],
    level: u32,
    item: &'t Item,
) -> Result<(), AllocError>
    ensures { let one = spec.busy_of definitions.now levels.now level (item.now ∷ []) in
        OnOk result (items_in busy.new.items ≡ items_in busy.old.items ++ one) }
{
    if !is_idle(definitions, levels, level, item) {
        busy.push(item)?;
    }
    Ok(())
}

/// Whether an item is an instance with a name that connects nothing, of a module below this level.
fn is_idle(definitions: &Definitions<'_>, levels: &[u32], level: u32, item: &Item) -> bool
    ensures { result ≡ spec.is_idle definitions.now levels.now level item.now }
{
    match item {
        Item::Instance(instance) => {
            is_below(definitions, levels, level, instance)
                && instance.name.is_some()
                && connects_nothing(&instance.connections)
        }
        _ => false,
    }
}
