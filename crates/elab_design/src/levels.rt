//! The levels of modules that make no net.

ghost use Rattle.std.specs.Prelude.{◌≡◌, ◌<◌, ◌≤◌, ◌+◌, ◌-◌, false, IfOk, OnOk, Some, replicate, slice_get};
ghost use Rattle.elab_design.specs.Quiet.{AreLevels, AreRaised};

use crate::quiet::{MOST_LEVEL, is_quiet, level_at};
use elab_prims::Definitions;
use netlist_grammar::Module;
use std::alloc::{AllocError, Global};

/// A level that modules of a text are raised to.
#[derive(Clone, Copy)]
struct NextLevel<'d> {
    definitions: &'d Definitions<'d>,
    level: u32,
    ghost some: { 0 < level },
    ghost few: { level ≤ 32 },
}

/// A level for each module that makes no net, and 33 for each other. Reads the modules once for each level.
#[tactic(auto, using(crate::proofs::Raising::none_at_first))]
pub fn levels_of(
    alloc: Global,
    definitions: &Definitions<'_>,
    modules: &[Module],
) -> Result<Vec<u32>, AllocError>
    requires { modules.now ≡ definitions.now.modules }
    ensures { IfOk result (λ levels. AreLevels definitions.now 32 levels.items) }
{
    let mut levels = no_levels(alloc, modules.len())?;
    'levels: for level in 1..MOST_LEVEL + 1 {
        let next = NextLevel { definitions, level };
        if !raise(alloc, &next, modules, &mut levels)? {
            return Ok(levels);
        }
    }
    Ok(levels)
}

fn no_levels(alloc: Global, count: usize) -> Result<Vec<u32>, AllocError>
    ensures { IfOk result (λ levels. levels.items ≡ replicate count 33) }
{
    Ok(vec![in alloc; MOST_LEVEL + 1; count]?)
}

/// Gives this level to the modules whose instances have lower ones. Answers whether there was one.
#[tactic(auto, using(crate::proofs::Raising::none_asked))]
fn raise(
    alloc: Global,
    next: &NextLevel<'_>,
    modules: &[Module],
    levels: &mut Vec<u32>,
) -> Result<bool, AllocError>
    requires modules { modules.now ≡ next.now.definitions.now.modules }
    requires levels { AreLevels next.now.definitions.now (next.now.level - 1) levels.old.items }
    ensures raised { OnOk result (AreLevels next.now.definitions.now next.now.level levels.new.items) }
    ensures any { IfOk result (λ any. any ≡ false → levels.new.items ≡ levels.old.items) }
{
    let mut any = false;
    'modules: for (k, unit) in modules.iter().enumerate() {
        if raise_one(alloc, next, levels, k, unit)? {
            any = true;
        }
    }
    Ok(any)
}

/// Gives a module this level, where it has none and its instances have lower ones. Answers whether it did.
#[tactic(auto, using(crate::proofs::Raising::raised_had, crate::proofs::Raising::raised_not, crate::proofs::Raising::within))]
fn raise_one(
    alloc: Global,
    next: &NextLevel<'_>,
    levels: &mut Vec<u32>,
    k: usize,
    unit: &Module,
) -> Result<bool, AllocError>
    requires levels { AreRaised next.now.definitions.now next.now.level k levels.old.items }
    requires unit { slice_get next.now.definitions.now.modules k ≡ Some unit.now }
    ensures raised { OnOk result (AreRaised next.now.definitions.now next.now.level (k + 1) levels.new.items) }
    ensures any { IfOk result (λ any. any ≡ false → levels.new.items ≡ levels.old.items) }
{
    if level_at(levels, k) <= MOST_LEVEL {
        return Ok(false);
    }
    if !is_quiet(alloc, next.definitions, levels, next.level, unit)? {
        return Ok(false);
    }
    levels[k] = next.level;
    Ok(true)
}
