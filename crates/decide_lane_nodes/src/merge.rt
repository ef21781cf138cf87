//! Unions of lists of places that ascend.

ghost use Rattle.std.specs.Prelude.{◌≡◌, ◌<◌, IfOk, length};
ghost use Rattle.std.specs.List.Sorted.{IsStrictlyIncreasing};
ghost use Rattle.decide_lane_nodes.specs.Union.{IsUnion, after, first, least, lower};

use base_lists::Memory;
use std::alloc::Global;

/// The places of two lists, each once, in place order: a merge. Takes 4 bytes a place.
pub fn union(alloc: Global, some: &[u32], others: &[u32]) -> Result<Vec<u32>, Memory>
    requires some { IsStrictlyIncreasing some.now }
    requires others { IsStrictlyIncreasing others.now }
    ensures { IfOk result (λ all. IsUnion some.now others.now all.items) }
{
    let mut all = Vec::with_capacity(alloc, some.len())?;
    let mut left = some;
    let mut right = others;
    'places: while let Some(place) = least(left, right) {
        all.push(place)?;
        left = after(left, place);
        right = after(right, place);
    }
    Ok(all)
}

/// The least of the first places, if there are any.
fn least(left: &[u32], right: &[u32]) -> Option<u32>
    ensures { result ≡ least left.now right.now }
{
    match left {
        [] => first(right),
        [x, ..] => Some(lower(*x, right)),
    }
}

fn first(places: &[u32]) -> Option<u32>
    ensures { result ≡ first places.now }
{
    match places {
        [] => None,
        [place, ..] => Some(*place),
    }
}

/// A place, or the first of some, whichever is lower.
fn lower(place: u32, places: &[u32]) -> u32
    ensures { result ≡ lower place places.now }
{
    match places {
        [] => place,
        [other, ..] => { if *other < place { *other } else { place } }
    }
}

/// Places without a place that may be the first of them.
fn after(places: &[u32], place: u32) -> &[u32]
    ensures { result.now ≡ after places.now place }
{
    match places {
        [] => places,
        [first, rest @ ..] => { if *first == place { rest } else { places } }
    }
}
