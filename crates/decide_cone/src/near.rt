//! The places of a cone and of its boundary together, and where they stand.

ghost use Rattle.std.specs.Prelude.{◌≡◌, ℕ, ◌<◌, ◌≤◌, ◌^◌, true, length, map, slice_index, IfOk};
ghost use Rattle.std.specs.List.{AllByRecursion};
ghost use Rattle.std.specs.List.Sorted.{IsStrictlyIncreasing};
ghost use Rattle.law_model.specs.Places.{among};
ghost use Rattle.decide_cone.specs.Boundary.{AreInside, AreNear, IsSomeCone};

use crate::descent::insert_all;
use crate::outside::{falling_boundary, numbers_of, taken_of};
use crate::positions::{check_few, position_of, positions_of};
use base_lists::Memory;
use decide_graph::Reached;
use decide_nodes::{Cone, Positions};
use std::alloc::Global;
use wave_proved::Wave;

/// The numbers of the places of a cone and of its boundary, in place order, where they are at most 2^27. Takes memory
/// as
/// `boundary` does.
pub fn near_places(alloc: Global, wave: &Wave<'_>, cone: &Cone) -> Result<Vec<usize>, Memory>
    requires { IsSomeCone wave.now cone.now.nodes }
    ensures near { IfOk result (λ numbers. AreNear wave.now cone.now.nodes numbers.items) }
    ensures few { IfOk result (λ numbers. length numbers.items ≤ 2 ^ 27) }
{
    let inside = cone_places(alloc, wave, cone)?;
    let beside = falling_boundary(alloc, wave, cone)?;
    let mut reached = Reached::new(alloc);
    insert_all(&mut reached, inside.as_slice())?;
    insert_all(&mut reached, beside.as_slice())?;
    let mut near = taken_of(alloc, reached)?;
    near.reverse();
    check_few(near.len())?;
    Ok(near)
}

/// The numbers of the places of a cone, in place order. Takes 8 bytes for each.
pub fn cone_places(alloc: Global, wave: &Wave<'_>, cone: &Cone) -> Result<Vec<usize>, Memory>
    requires { IsSomeCone wave.now cone.now.nodes }
    ensures { IfOk result (λ numbers. AreInside wave.now cone.now.nodes numbers.items) }
{
    numbers_of(alloc, &wave.circuit(), cone.nodes())
}

/// Where a place stands in a list that ascends.
pub fn position_in(places: &[usize], place: usize) -> u32
    requires rising { IsStrictlyIncreasing places.now }
    requires few { length places.now ≤ 2 ^ 27 }
    requires inside { among places.now place ≡ true }
    ensures within { result < length places.now }
    ensures place { slice_index places.now result ≡ place }
{
    position_of(&[], places, place)
}

/// Where at most 13 places stand in a list that ascends.
pub fn positions_in(places: &[usize], some: &[usize]) -> Positions
    requires rising { IsStrictlyIncreasing places.now }
    requires few { length places.now ≤ 2 ^ 27 }
    requires few_places { length some.now ≤ 13 }
    requires all { AllByRecursion (λ k. among places.now k ≡ true) some.now }
    ensures within { AllByRecursion (λ p. p < length places.now) result }
    ensures places { map (slice_index places.now) result ≡ some.now }
{
    positions_of(&[], places, some)
}
