//! The design of a tree.

ghost use Rattle.std.specs.Prelude.{◌≡◌, ◌≢◌, ◌<◌, ◌^◌, [], ◌∷◌, None, Ok, Err, IfOk, IfErr, length};
ghost use Rattle.netlist_grammar.specs.Whole.{IsWhole};
ghost use Rattle.design_circuit.specs.Design.{FitsDesign};
ghost use Rattle.elab_nets.specs.declared.fault.ElabErr.TheVariants.{Memory as OutOfMemory};
ghost use Rattle.elab_nets.specs.Outcome.{Gives};
ghost use Rattle.elab_nets.specs.State.{finished};
ghost use Rattle.elab_names.specs.Names.{opened};
ghost use Rattle.elab_prims.specs.Definitions.{definition_of, repeated};
ghost use Rattle.elab_tree.specs.Elaborate as spec;
ghost use Rattle.elab_tree.specs.Library.{library_of, module_of};
ghost use Rattle.elab_tree.specs.Text.{Elaborates, IsAnswer};
ghost use Rattle.elab_design.specs.Held.{AreTables};
ghost use Rattle.elab_design.specs.Busy.{state_of};

use crate::elaborator::Elaborator;
use crate::instances::add_below;
use crate::library::{Idle, Library, modules_of};
use crate::path::{Path, copy_of};
use base_lists::Items;
use design_cell::Udp;
use design_circuit::Design;
use elab_names::{Declarations, Here};
use elab_nets::{ElabErr, Nets};
use elab_prims::{Definition, Definitions, build_primitives};
use netlist_grammar::Source;
use std::alloc::Global;

/// How many modules a path may have.
const MOST_MODULES: usize = 32;

/// The design of a text's tree, with the module named `top` as its top, or the first reason why there is none: first
/// the names of all definitions, then the primitives, then the top. Takes some 300 bytes for each net two instances
/// below the top, 64 more for each instance further down, and for each definition the memory of its name, its level,
/// its ports, the names that it declares and two references for each of its items.
#[tactic(auto, using(crate::proofs::Answering::answer_by, crate::proofs::Answering::fits))]
pub fn elaborate(alloc: Global, source: &Source, top: &str) -> Result<Design, ElabErr>
    requires whole { IsWhole source.now }
    requires few { length source.now.primitives < 2 ^ 32 }
    ensures design { IfOk result (λ design. Elaborates source.now top.now (Ok design)) }
    ensures refused { IfErr result (λ e. e ≢ OutOfMemory → Elaborates source.now top.now (Err e)) }
    ensures exact { IsAnswer source.now top.now result }
    ensures fits { IfOk result FitsDesign }
{
    find_design(alloc, source, top)
}

fn find_design(alloc: Global, source: &Source, top: &str) -> Result<Design, ElabErr>
    requires { length source.now.primitives < 2 ^ 32 }
    ensures design { IfOk result (λ design. Elaborates source.now top.now (Ok design)) }
    ensures refused { IfErr result (λ e. e ≢ OutOfMemory → Elaborates source.now top.now (Err e)) }
{
    let definitions = Definitions::new(alloc, source)?;
    design_in(alloc, &definitions, top)
}

/// The design of a text whose definitions have names of their own.
fn design_in(alloc: Global, definitions: &Definitions<'_>, top: &str) -> Result<Design, ElabErr>
    requires few { length definitions.now.primitives < 2 ^ 32 }
    requires once { repeated definitions.now ≡ None }
    ensures design { IfOk result (λ design. Elaborates definitions.now top.now (Ok design)) }
    ensures refused { IfErr result (λ e. e ≢ OutOfMemory → Elaborates definitions.now top.now (Err e)) }
{
    let udps = build_primitives(alloc, definitions.source().primitives.as_slice())?;
    let nets = make_nets(alloc, definitions, &udps, top)?;
    Ok(nets.into_design(udps))
}

/// The nets of the top and of all below it.
fn make_nets(
    alloc: Global,
    definitions: &Definitions<'_>,
    udps: &[Udp],
    top: &str,
) -> Result<Nets, ElabErr>
    requires { AreTables definitions.now udps.now }
    ensures { let library = library_of definitions.now udps.now in
        Gives (spec.design_of library top.now) result (λ nets. finished udps.now nets) }
{
    let modules = modules_of(alloc, definitions.source().modules.as_slice())?;
    nets_with(alloc, definitions, udps, &modules, top)
}

/// The same with what the declarations of the modules come to.
fn nets_with(
    alloc: Global,
    definitions: &Definitions<'_>,
    udps: &[Udp],
    modules: &[Declarations<'_>],
    top: &str,
) -> Result<Nets, ElabErr>
    requires tables { AreTables definitions.now udps.now }
    requires modules { modules.now ≡ definitions.now.modules }
    ensures { let library = library_of definitions.now udps.now in
        Gives (spec.design_of library top.now) result (λ nets. finished udps.now nets) }
{
    let idle = Idle::new(alloc, definitions, modules)?;
    let library = Library::new(definitions, udps, modules, &idle);
    nets_of(alloc, &library, top.as_bytes())
}

/// The nets of the module of a name, as the top.
#[tactic(auto, using(crate::proofs::Bodies::design_is))]
fn nets_of<'t>(alloc: Global, library: &'t Library<'t>, top: &[u8]) -> Result<Nets, ElabErr>
    ensures { Gives (spec.design_of library.now top.now) result (λ nets. finished library.now.tables nets) }
{
    let k = find_top(alloc, library, top)?;
    fill_top(alloc, library, k)
}

/// The top is a module.
fn find_top(alloc: Global, library: &Library<'_>, name: &[u8]) -> Result<usize, ElabErr>
    ensures top { Gives (spec.top_of (definition_of library.now.source name.now) name.now) result (λ k. k) }
    ensures within { IfOk result (λ k. k < length library.now.source.modules) }
{
    match library.find(name) {
        Some(Definition::Module(k)) => Ok(k),
        _ => Err(ElabErr::NoModule {
            name: copy_of(alloc, name)?,
        }),
    }
}

/// The nets of the module at a position, as the top.
fn fill_top<'t>(alloc: Global, library: &'t Library<'t>, k: usize) -> Result<Nets, ElabErr>
    requires { k < length library.now.source.modules }
    ensures { Gives (spec.whole library.now k) result (λ nets. finished library.now.tables nets) }
{
    let mut here = open_top(alloc, library, k)?;
    add_top_items(library, &mut here, k)?;
    Ok(here.nets)
}

/// Opens the module at a position as the top.
fn open_top<'t>(alloc: Global, library: &'t Library<'t>, k: usize) -> Result<Here<'t>, ElabErr>
    requires { k < length library.now.source.modules }
    ensures open { let unit = module_of library.now k in
        Gives (opened unit.ports unit.items spec.at_top) result (λ here. here) }
    ensures new { IfOk result (λ here. here.scope.instances ≡ []) }
{
    let mut nets = Nets::new(alloc);
    let prefix = Items::from_vec(Vec::new(alloc));
    let scope = library.module(k).open(alloc, prefix, &mut nets)?;
    Ok(Here { alloc, scope, nets })
}

/// The items of the module at a position, once it is open as the top.
fn add_top_items<'t>(library: &'t Library<'t>, here: &mut Here<'t>, k: usize) -> Result<(), ElabErr>
    requires within { k < length library.now.source.modules }
    requires new { here.old.scope.instances ≡ [] }
    ensures { let items = (module_of library.now k).items in
        Gives (state_of (spec.body library.now 32 (k ∷ []) items here.old)) result (λ _. here.new.state) }
{
    let mut elaborator = Elaborator::new(here.alloc, library);
    let path = Path {
        modules: &[],
        room: MOST_MODULES,
    };
    add_below(&mut elaborator, &path, here, k)
}
