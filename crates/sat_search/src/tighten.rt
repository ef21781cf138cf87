//! Making a clause tight: each literal that can be left out is.

ghost use Rattle.std.specs.Prelude.{◌≡◌, ◌<◌, ◌++◌, ◌∷◌, [], true, false, length, OnOk, IfOk};
ghost use Rattle.sat_proof.specs.Premises.{all_in};
ghost use Rattle.sat_proof.specs.Closed.{NoneResists};
ghost use Rattle.sat_proof.specs.Propagator.{ComesBack, IsAtBase, LeadsBack};
ghost use Rattle.sat_proof.specs.Status.{literal_at};
ghost use Rattle.sat_proof.specs.Trail.{HasMarks};
ghost use Rattle.sat_search.specs.Learn.{IsFoundConflict, AreNeeded, IsExtended};

use crate::reach::reach_all;
use sat_proof::premises::Premises;
use sat_proof::propagator::Propagator;
use std::alloc::AllocError;

/// Where the conflict comes: nowhere, with a literal that is kept, or with the rest's literal at a place.
pub(crate) enum Found {
    Nowhere,
    Kept,
    Rest(usize),
}

/// Leaves literals of the rest out as long as the clause of both parts follows, and moves those that are needed to the
/// first part; whether the clause followed. Takes one propagation for each literal that is needed.
pub(crate) fn tighten(
    propagator: &mut Propagator,
    clauses: &Premises<'_>,
    kept: &mut Vec<i32>,
    rest: &[i32],
) -> Result<bool, AllocError>
    requires base { IsAtBase propagator.old (all_in clauses.now) }
    requires room_kept { HasMarks propagator.old.trail kept.old.items }
    requires room_rest { HasMarks propagator.old.trail rest.now }
    requires needed { AreNeeded (all_in clauses.now) kept.old.items rest.now }
    ensures no { IfOk result (λ b. b ≡ false → NoneResists (all_in clauses.now) (kept.old.items ++ rest.now) → ⊥) }
    ensures yes { IfOk result (λ b. b ≡ true → NoneResists (all_in clauses.now) kept.new.items) }
    ensures needed { IfOk result (λ b. b ≡ true → AreNeeded (all_in clauses.now) kept.new.items []) }
    ensures extended { OnOk result (IsExtended kept.old.items rest.now kept.new.items) }
    ensures room_kept { OnOk result (HasMarks propagator.old.trail kept.new.items) }
    ensures back { OnOk result (ComesBack propagator.old propagator.new (all_in clauses.now)) }
{
    let mut len = rest.len();
    'rounds: loop {
        match probe(propagator, clauses, kept, &rest[..len]) {
            Found::Nowhere => return Ok(false),
            Found::Kept => return Ok(true),
            Found::Rest(k) => {
                push_at(kept, rest, k)?;
                if k == 0 {
                    return Ok(true);
                }
                len = k;
            }
        }
    }
}

/// One more literal is kept.
pub(crate) fn push_at(kept: &mut Vec<i32>, rest: &[i32], k: usize) -> Result<(), AllocError>
    requires { k < length rest.now }
    ensures { OnOk result (kept.new.items ≡ kept.old.items ++ literal_at rest.now k ∷ []) }
{
    kept.push(rest[k])?;
    Ok(())
}

/// Where the conflict comes as the literals of both parts are made false in turn.
fn probe(propagator: &mut Propagator, clauses: &Premises<'_>, kept: &[i32], rest: &[i32]) -> Found
    requires base { IsAtBase propagator.old (all_in clauses.now) }
    requires room_kept { HasMarks propagator.old.trail kept.now }
    requires room_rest { HasMarks propagator.old.trail rest.now }
    ensures found { IsFoundConflict (all_in clauses.now) kept.now rest.now result }
    ensures back { ComesBack propagator.old propagator.new (all_in clauses.now) }
{
    let len = propagator.trail.len;
    let found = seek(propagator, clauses, kept, rest);
    propagator.trail.undo(len);
    found
}

fn seek(propagator: &mut Propagator, clauses: &Premises<'_>, kept: &[i32], rest: &[i32]) -> Found
    requires base { IsAtBase propagator.old (all_in clauses.now) }
    requires room_kept { HasMarks propagator.old.trail kept.now }
    requires room_rest { HasMarks propagator.old.trail rest.now }
    ensures found { IsFoundConflict (all_in clauses.now) kept.now rest.now result }
    ensures back { LeadsBack propagator.old propagator.new (all_in clauses.now) }
{
    match reach_all(propagator, clauses, kept) {
        Some(_) => Found::Kept,
        None => match reach_all(propagator, clauses, rest) {
            Some(k) => Found::Rest(k),
            None => Found::Nowhere,
        },
    }
}
