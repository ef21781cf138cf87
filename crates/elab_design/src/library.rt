//! What the instances of a text name.

ghost use Rattle.std.specs.Prelude.{◌≡◌, ◌<◌, IfOk, length, map, slice_index_or};
ghost use Rattle.design_circuit.specs.Job.{primitive_of};
ghost use Rattle.elab_tree.specs.Library.{no_module};
ghost use Rattle.elab_names.specs.Outline.{items_in};
ghost use Rattle.elab_design.specs.Quiet.{is_passed_over as spec_is_passed_over};
ghost use Rattle.elab_design.specs.Busy as spec;
ghost use Rattle.elab_design.specs.Busy.{busy_of_module, to_do};

use crate::busy::Busy;
use crate::levels::levels_of;
use crate::quiet::{MOST_LEVEL, are_from, connects_nothing, level_at};
use design_cell::Udp;
use elab_names::Declarations;
use elab_prims::{Definition, Definitions};
use netlist_grammar::{InstanceItem, Item, Module};
use std::alloc::{AllocError, Global};
use std::marker::Model;

/// The definitions of a text, the tables of its primitives, and what is worked out once for each module: what its
/// declarations and ports come to, which items are left then, which of these aren't idle, and a level where it makes no
/// net.
#[derive(Drop)]
pub struct Library<'t> {
    definitions: &'t Definitions<'t>,
    udps: &'t [Udp],
    modules: &'t [Declarations<'t>],
    idle: &'t Idle<'t>,
}

/// What of a text's modules makes nothing: the level of each, and which of its items are busy.
#[derive(Drop)]
pub struct Idle<'t> {
    levels: Vec<u32>,
    busy: Vec<Busy<'t>>,
}

impl<'t> Model for Library<'t> {
    ghost use Rattle.elab_tree.specs.Library.{Library, library_of};
    ghost use Rattle.elab_design.specs.Held.{Holds};

    ghost Value = { Library };

    ghost view = { λ l. library_of l.definitions.now l.udps.now };

    ghost invariant = { λ l.
        Holds l.definitions.now l.udps.now l.modules.now l.idle.now.levels.items l.idle.now.busy.items };
}

impl<'t> Library<'t> {
    ghost use Rattle.std.specs.Prelude.{◌≡◌, ◌<◌, ◌≤◌, ◌^◌, IfSome, IsTrue, length, map};
    ghost use Rattle.design_cell.specs.Refusal.{input_limit};
    ghost use Rattle.design_circuit.specs.Job.{primitive_of};
    ghost use Rattle.elab_prims.specs.Definitions.{definition_of, IsThere};
    ghost use Rattle.elab_tree.specs.Library.{library_of, module_of};
    ghost use Rattle.elab_names.specs.Outline.{items_in, left_of};
    ghost use Rattle.elab_design.specs.Held.{AreTables, IsPassing};
    ghost use Rattle.elab_design.specs.Quiet.{AreLevels};
    ghost use Rattle.elab_design.specs.Busy.{IsToDo, busy_of_module};

    /// The library of a text whose names are in order, with the tables of its primitives, what the declarations of its
    /// modules come to, and what is idle in them.
    pub fn new(
        definitions: &'t Definitions<'t>,
        udps: &'t [Udp],
        modules: &'t [Declarations<'t>],
        idle: &'t Idle<'t>,
    ) -> Library<'t>
        requires tables { AreTables definitions.now udps.now }
        requires modules { modules.now ≡ definitions.now.modules }
        requires levels { AreLevels definitions.now 32 idle.now.levels.items }
        requires busy { idle.now.busy.items ≡ map (busy_of_module definitions.now idle.now.levels.items) modules.now }
        ensures { result ≡ library_of definitions.now udps.now }
    {
        Library {
            definitions,
            udps,
            modules,
            idle,
        }
    }

    /// What a name defines.
    pub fn find(&self, name: &[u8]) -> Option<Definition>
        ensures found { result ≡ definition_of self.now.source name.now }
        ensures there { IfSome result (λ d. IsThere self.now.source d) }
    {
        self.definitions.find(name)
    }

    /// The tables of the primitives, in their order.
    pub fn udps(&self) -> &'t [Udp]
        ensures { result.now ≡ self.now.tables }
    {
        self.udps
    }

    /// The table of the primitive at a position.
    pub fn udp(&self, k: usize) -> &'t Udp
        requires { k < length self.now.source.primitives }
        ensures table { result.now ≡ primitive_of self.now.tables k }
        ensures few { result.now.inputs ≤ input_limit result.now.sequential }
        ensures within { k < length self.now.tables }
        ensures tables { length self.now.tables < 2 ^ 32 }
    {
        udp_at(self.udps, k)
    }

    /// The module at a position, with what its declarations come to.
    pub fn module(&self, k: usize) -> &Declarations<'t>
        requires { k < length self.now.source.modules }
        ensures { result.now ≡ module_of self.now k }
    {
        module_at(self.modules, k)
    }

    /// Which items of the module at a position are to be gone through, where it ends this path. The path before it may
    /// have `room` modules more.
    #[tactic(auto, using(crate::proofs::Choosing::busy_there))]
    pub fn to_do(&self, path: &[usize], room: usize, k: usize) -> &[&'t Item]
        requires { k < length self.now.source.modules }
        ensures { let items = (module_of self.now k).items in
            IsToDo self.now.source path.now room (left_of items) (items_in result.now) }
    {
        let left = self.module(k).left();
        to_do_of(
            &self.idle.levels,
            busy_at(&self.idle.busy, k),
            left,
            path,
            room,
        )
    }

    /// Whether depth and path allow that an instance of a module that makes no net is passed over. The path may have
    /// `room` modules more.
    pub fn passes_over(&self, path: &[usize], room: usize, k: usize, item: &InstanceItem) -> bool
        ensures { IsPassing self.now.source path.now room k item.now result }
    {
        is_passed_over(&self.idle.levels, path, room, k, item)
    }
}

impl<'t> Idle<'t> {
    ghost use Rattle.std.specs.Prelude.{◌≡◌, IfOk, map};
    ghost use Rattle.elab_design.specs.Quiet.{AreLevels};
    ghost use Rattle.elab_design.specs.Busy.{busy_of_module};

    /// What is idle in these modules of a text.
    pub fn new(
        alloc: Global,
        definitions: &Definitions<'_>,
        modules: &[Declarations<'t>],
    ) -> Result<Idle<'t>, AllocError>
        ensures levels { IfOk result (λ idle. AreLevels definitions.now 32 idle.levels.items) }
        ensures busy { IfOk result (λ idle.
            idle.busy.items ≡ map (busy_of_module definitions.now idle.levels.items) modules.now) }
    {
        let levels = levels_of(alloc, definitions, definitions.source().modules.as_slice())?;
        let busy = all_busy(alloc, definitions, &levels, modules)?;
        Ok(Idle { levels, busy })
    }
}

fn is_passed_over(
    levels: &[u32],
    path: &[usize],
    room: usize,
    k: usize,
    item: &InstanceItem,
) -> bool
    ensures { result ≡ spec_is_passed_over levels.now path.now room k item.now }
{
    let level = level_at(levels, k);
    level <= MOST_LEVEL
        && level as usize <= room
        && are_from(levels, level + 1, path)
        && connects_nothing(&item.connections)
}

/// What the declarations of each module come to, in the order of the text.
pub fn modules_of<'t>(
    alloc: Global,
    modules: &'t [Module],
) -> Result<Vec<Declarations<'t>>, AllocError>
    ensures { IfOk result (λ all. all.items ≡ modules.now) }
{
    let mut all = Vec::new(alloc);
    'modules: for unit in modules {
        all.push(Declarations::new(alloc, unit)?)?;
    }
    Ok(all)
}

/// The items of each module that aren't idle.
fn all_busy<'t>(
    alloc: Global,
    definitions: &Definitions<'_>,
    levels: &[u32],
    modules: &[Declarations<'t>],
) -> Result<Vec<Busy<'t>>, AllocError>
    ensures { IfOk result (λ all. all.items ≡ map (busy_of_module definitions.now levels.now) modules.now) }
{
    let mut all = Vec::new(alloc);
    'modules: for unit in modules {
        all.push(Busy::new(alloc, definitions, levels, unit.left())?)?;
    }
    Ok(all)
}

/// All that is left of a module's items, or the busy ones where depth and path allow that the others are idle.
fn to_do_of<'l, 't>(
    levels: &[u32],
    busy: &'l Busy<'t>,
    left: &'l [&'t Item],
    path: &[usize],
    room: usize,
) -> &'l [&'t Item]
    ensures { items_in result.now ≡ to_do levels.now path.now room busy.now (items_in left.now) }
{
    if allows(levels, path, room, busy.level()) {
        busy.items()
    } else {
        left
    }
}

/// Whether depth and path allow that instances below a level are idle.
fn allows(levels: &[u32], path: &[usize], room: usize, level: u32) -> bool
    ensures { result ≡ spec.allows levels.now path.now room level }
{
    0 < level && level <= MOST_LEVEL && level as usize <= room && are_from(levels, level, path)
}

fn busy_at<'l, 't>(busy: &'l [Busy<'t>], k: usize) -> &'l Busy<'t>
    requires { k < length busy.now }
    ensures { result.now ≡ slice_index_or busy.now k spec.no_busy }
{
    &busy[k]
}

fn module_at<'l, 't>(modules: &'l [Declarations<'t>], k: usize) -> &'l Declarations<'t>
    requires { k < length modules.now }
    ensures { result.now ≡ slice_index_or modules.now k no_module }
{
    &modules[k]
}

fn udp_at(udps: &[Udp], k: usize) -> &Udp
    requires { k < length udps.now }
    ensures { result.now ≡ primitive_of udps.now k }
{
    &udps[k]
}
