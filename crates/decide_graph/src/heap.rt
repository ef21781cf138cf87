//! A heap of places by number, whose greatest stands apart. A place may stand in it more than once.

ghost use Rattle.std.specs.Prelude.{◌≡◌, ◌≤◌, IfOk, OnErr};
ghost use Rattle.std.specs.BinaryHeap.{IsHeap, heap_items};
ghost use Rattle.std.specs.List.{AllByRecursion};
ghost use Rattle.std.specs.Ordering.{nat_cmp};
ghost use Rattle.decide_graph.specs.Reached.{Joins, PopsBelow};

use base_lists::Memory;
use std::collections::BinaryHeap;

/// A place comes to the greatest and the others, and the greatest of all is given.
pub fn put(places: &mut BinaryHeap<usize>, greatest: usize, place: usize) -> Result<usize, Memory>
    requires heap { IsHeap nat_cmp (heap_items places.old) }
    requires below { AllByRecursion (λ k. k ≤ greatest) (heap_items places.old) }
    ensures heap { IsHeap nat_cmp (heap_items places.new) }
    ensures ok { IfOk result (λ now. Joins greatest (heap_items places.old) place now (heap_items places.new)) }
    ensures err { OnErr result (heap_items places.new ≡ heap_items places.old) }
{
    if place < greatest {
        places.push(place)?;
        return Ok(greatest);
    }
    if greatest < place {
        places.push(greatest)?;
    }
    Ok(place)
}

/// Takes out what isn't below a bound, which none is over, and the greatest of the others.
pub fn pop_below(places: &mut BinaryHeap<usize>, bound: usize) -> Option<usize>
    requires heap { IsHeap nat_cmp (heap_items places.old) }
    requires bound { AllByRecursion (λ k. k ≤ bound) (heap_items places.old) }
    ensures heap { IsHeap nat_cmp (heap_items places.new) }
    ensures pops { PopsBelow bound (heap_items places.old) result (heap_items places.new) }
{
    'copies: while let Some(place) = places.pop() {
        if place < bound {
            return Some(place);
        }
    }
    None
}
