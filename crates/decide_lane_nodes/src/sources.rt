//! The sources of a place that isn't carried: those of its arguments, and itself where its rule leaves its bit open.

ghost use Rattle.std.specs.Prelude.{◌≡◌, ◌<◌, ◌^◌, ◌++◌, ◌∷◌, [], Some, IfOk, IfSome, IsTrue, length, if◌then◌else◌};
ghost use Rattle.std.specs.List.{AllByRecursion, list_any};
ghost use Rattle.design_cell.specs.Value.{is_unknown};
ghost use Rattle.decide_lane_nodes.specs.Nodes.{node_at};
ghost use Rattle.decide_lane_nodes.specs.Joined.{AreListed, IsJoined};
ghost use Rattle.decide_lane_nodes.specs.Covered.{IsCovered};

use crate::literal::{Covered, literal_at, sources_at};
use crate::merge::union;
use crate::nodes::Nodes;
use base_lists::Memory;
use design_cell::Value;
use std::alloc::Global;

/// Sources are kept where there are at most about so many.
const MANY: usize = 1024;

/// The sources of some places, or none where one has no list, or they are many.
pub fn joined(
    alloc: Global,
    covered: Covered<'_>,
    arguments: &[usize],
) -> Result<Option<Vec<u32>>, Memory>
    requires covered { AllByRecursion (IsCovered covered) arguments.now }
    requires rises { AllByRecursion (AreListed covered) arguments.now }
    ensures { IfOk result (λ found. IfSome found (λ all. IsJoined covered.entry arguments.now all.items)) }
{
    match arguments {
        [] => Ok(Some(Vec::new(alloc))),
        [first, others @ ..] => match joined(alloc, covered, others)? {
            Some(all) => with_first(alloc, covered, *first, others, all),
            None => Ok(None),
        },
    }
}

/// The sources of some places, and of one before them, where it has a list and they aren't many.
fn with_first(
    alloc: Global,
    covered: Covered<'_>,
    first: usize,
    others: &[usize],
    all: Vec<u32>,
) -> Result<Option<Vec<u32>>, Memory>
    requires covered { IsCovered covered first }
    requires listed { AreListed covered first }
    requires all { IsJoined covered others.now all.items }
    ensures { IfOk result (λ found. IfSome found (λ more. IsJoined covered.entry (first ∷ others.now) more.items)) }
{
    match sources_at(covered, first) {
        Some(list) => {
            if list.len() > MANY || all.len() > MANY {
                return Ok(None);
            }
            let more = union(alloc, list, all.as_slice())?;
            Ok(Some(more))
        }
        None => Ok(None),
    }
}

/// A place after others, if it is a source.
pub fn with_own(sources: Vec<u32>, place: usize, is_source: bool) -> Result<Vec<u32>, Memory>
    requires { place < 2 ^ 32 }
    ensures { IfOk result (λ all. all.items ≡ sources.items ++ (if is_source then place ∷ [] else [])) }
{
    let mut all = sources;
    if is_source {
        all.push(place as u32)?;
    }
    Ok(all)
}

/// Whether a table has x: the place then is a source.
pub fn any_unknown(values: &[Value]) -> bool
    ensures { result ≡ list_any is_unknown values.now }
{
    values.iter().any(|value| !value.is_known())
}

/// The node of an argument that has just that list.
pub fn sharing(covered: Covered<'_>, arguments: &[usize], list: &[u32]) -> Option<usize>
    requires { AllByRecursion (IsCovered covered) arguments.now }
    ensures within { IfSome result (λ node. node < length covered.entry.nodes.now) }
    ensures same { IfSome result (λ node. (node_at covered.entry.nodes.now node).sources ≡ Some list.now) }
{
    'arguments: for argument in arguments {
        let node = literal_at(covered, *argument).node();
        if has_list(covered.nodes, node, list) {
            return Some(node);
        }
    }
    None
}

fn has_list(nodes: &Nodes, node: usize, list: &[u32]) -> bool
    requires { node < length nodes.now }
    ensures { IsTrue result → (node_at nodes.now node).sources ≡ Some list.now }
{
    match nodes.sources(node) {
        Some(other) => other == list,
        None => false,
    }
}
