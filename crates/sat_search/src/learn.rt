//! Learning a fresh clause from one that follows.

ghost use Rattle.std.specs.Prelude.{◌≡◌, ◌<◌, ◌+◌, ◌*◌, true, false, length, neg_ℤ, IfOk, IfSome, IfNone, OnOk};
ghost use Rattle.std.specs.List.{All};
ghost use Rattle.sat_proof.specs.Premises.{all_in};
ghost use Rattle.sat_proof.specs.Closed.{NoneResists, IsFalse};
ghost use Rattle.sat_proof.specs.Code.{HasRoom, is_false};
ghost use Rattle.sat_proof.specs.Log.{IsFresh};
ghost use Rattle.sat_proof.specs.Propagator.{ComesBack, IsAtBase};
ghost use Rattle.sat_proof.specs.Status.{literal_at};
ghost use Rattle.sat_proof.specs.Trail.{HasMarks};
ghost use Rattle.sat_search.specs.Learn.{CanBeTried, IsAssertingNow};

use crate::tighten::{push_at, tighten};
use sat_proof::clause_status::{Value, is_marked, value_at};
use sat_proof::premises::Premises;
use sat_proof::propagator::Propagator;
use std::alloc::{AllocError, Global};

/// The tight part of a candidate, which is fresh; or none, where the candidate doesn't follow.
pub(crate) fn learn_from(
    alloc: Global,
    propagator: &mut Propagator,
    clauses: &Premises<'_>,
    candidate: &[i32],
) -> Result<Option<Vec<i32>>, AllocError>
    requires base { IsAtBase propagator.old (all_in clauses.now) }
    requires candidate { CanBeTried propagator.old.trail (all_in clauses.now) candidate.now }
    ensures none { IfOk result (λ o. IfNone o (NoneResists (all_in clauses.now) candidate.now → ⊥)) }
    ensures fresh { IfOk result (λ o. IfSome o (λ v. IsFresh (all_in clauses.now) v.items)) }
    ensures room { IfOk result (λ o. IfSome o (λ v. HasMarks propagator.old.trail v.items)) }
    ensures back { OnOk result (ComesBack propagator.old propagator.new (all_in clauses.now)) }
{
    let last = candidate.len() - 1;
    let mut kept = Vec::new(alloc);
    push_at(&mut kept, candidate, last)?;
    if tighten(propagator, clauses, &mut kept, &candidate[..last])? {
        Ok(Some(kept))
    } else {
        Ok(None)
    }
}

/// A fresh clause: the tight part of the hint, if that follows, else of the decisions.
pub(crate) fn learn(
    alloc: Global,
    propagator: &mut Propagator,
    clauses: &Premises<'_>,
    decisions: &[i32],
    hint: Option<&[i32]>,
) -> Result<Vec<i32>, AllocError>
    requires base { IsAtBase propagator.old (all_in clauses.now) }
    requires decisions { CanBeTried propagator.old.trail (all_in clauses.now) decisions.now }
    requires follows { NoneResists (all_in clauses.now) decisions.now }
    requires hint { IfSome hint (λ c. CanBeTried propagator.old.trail (all_in clauses.now) c.now) }
    ensures fresh { IfOk result (λ v. IsFresh (all_in clauses.now) v.items) }
    ensures room { IfOk result (λ v. HasMarks propagator.old.trail v.items) }
    ensures back { OnOk result (ComesBack propagator.old propagator.new (all_in clauses.now)) }
{
    if let Some(literals) = learn_hint(alloc, propagator, clauses, hint)? {
        return Ok(literals);
    }
    match learn_from(alloc, propagator, clauses, decisions)? {
        Some(literals) => Ok(literals),
        None => unreachable!(),
    }
}

fn learn_hint(
    alloc: Global,
    propagator: &mut Propagator,
    clauses: &Premises<'_>,
    hint: Option<&[i32]>,
) -> Result<Option<Vec<i32>>, AllocError>
    requires base { IsAtBase propagator.old (all_in clauses.now) }
    requires hint { IfSome hint (λ c. CanBeTried propagator.old.trail (all_in clauses.now) c.now) }
    ensures fresh { IfOk result (λ o. IfSome o (λ v. IsFresh (all_in clauses.now) v.items)) }
    ensures room { IfOk result (λ o. IfSome o (λ v. HasMarks propagator.old.trail v.items)) }
    ensures back { OnOk result (ComesBack propagator.old propagator.new (all_in clauses.now)) }
{
    match hint {
        None => Ok(None),
        Some(literals) => learn_from(alloc, propagator, clauses, literals),
    }
}

/// The candidate, if its literals but the last are false, the last isn't true, and there are marks for all.
pub(crate) fn tested<'a>(marks: &[bool], vars: usize, candidate: &'a [i32]) -> Option<&'a [i32]>
    requires { length marks.now ≡ 2 * vars + 2 }
    ensures { IfSome result (λ c. IsAssertingNow marks.now c.now) }
{
    if is_asserting(marks, vars, candidate) {
        Some(candidate)
    } else {
        None
    }
}

/// Whether a candidate's literals but the last are false, the last isn't true, and there are marks for all.
fn is_asserting(marks: &[bool], vars: usize, candidate: &[i32]) -> bool
    requires { length marks.now ≡ 2 * vars + 2 }
    ensures { result ≡ true → IsAssertingNow marks.now candidate.now }
{
    if candidate.len() == 0 {
        return false;
    }
    if !have_room(vars, candidate) {
        return false;
    }
    let last = candidate.len() - 1;
    if !are_false(marks, &candidate[..last]) {
        return false;
    }
    is_not_true(marks, candidate, last)
}

fn have_room(vars: usize, literals: &[i32]) -> bool
    ensures { result ≡ true → All (HasRoom (2 * vars + 2)) literals.now }
{
    for k in 0..literals.len() {
        if !has_room(vars, literals, k) {
            return false;
        }
    }
    true
}

fn has_room(vars: usize, literals: &[i32], k: usize) -> bool
    requires { k < length literals.now }
    ensures { result ≡ true → HasRoom (2 * vars + 2) (literal_at literals.now k) }
{
    let literal = literals[k];
    literal != 0 && literal.unsigned_abs() as usize <= vars
}

fn are_false(marks: &[bool], literals: &[i32]) -> bool
    requires { All (HasRoom (length marks.now)) literals.now }
    ensures { result ≡ true → IsFalse (is_false marks.now) literals.now }
{
    for k in 0..literals.len() {
        if !is_marked(marks, literals, k) {
            return false;
        }
    }
    true
}

fn is_not_true(marks: &[bool], literals: &[i32], k: usize) -> bool
    requires below { k < length literals.now }
    requires room { HasRoom (length marks.now) (literal_at literals.now k) }
    ensures { result ≡ true → is_false marks.now (neg_ℤ (literal_at literals.now k)) ≡ false }
{
    match value_at(marks, literals, k) {
        Value::True => false,
        Value::False => false,
        Value::Open => true,
    }
}
