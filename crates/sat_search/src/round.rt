//! One round: decisions up to a conflict, and what is learnt from it.

ghost use Rattle.std.specs.Prelude.{◌≡◌, ◌≤◌, ◌+◌, ◌*◌, length, IfOk, IfSome, IfNone, OnOk, OnSome};
ghost use Rattle.sat_proof.specs.Premises.{all_in};
ghost use Rattle.sat_proof.specs.Log.{IsFresh};
ghost use Rattle.sat_proof.specs.Propagator.{ComesBack, IsAtBase};
ghost use Rattle.sat_proof.specs.Trail.{HasMarks};
ghost use Rattle.sat_search.specs.Decide.{AreValued};
ghost use Rattle.sat_search.specs.Reach.{IsSettled};

use crate::decide::descend;
use crate::hints::Hints;
use crate::learn::{learn, tested};
use sat_proof::premises::Premises;
use sat_proof::propagator::Propagator;
use std::alloc::{AllocError, Global};

/// A fresh clause, with the trail as it was; or none, where each variable has a value on the trail and no clause is
/// false.
pub(crate) fn round(
    alloc: Global,
    propagator: &mut Propagator,
    clauses: &Premises<'_>,
    vars: usize,
    hints: &mut Hints,
) -> Result<Option<Vec<i32>>, AllocError>
    requires base { IsAtBase propagator.old (all_in clauses.now) }
    requires vars { vars ≤ 2147483647 }
    requires codes { length propagator.old.trail.marks.items ≡ 2 * vars + 2 }
    ensures settled { IfOk result (λ o. IfNone o (IsSettled propagator.new (all_in clauses.now))) }
    ensures valued { IfOk result (λ o. IfNone o (AreValued propagator.new.trail.marks.items vars)) }
    ensures size { OnOk result (length propagator.new.trail.marks.items ≡ length propagator.old.trail.marks.items) }
    ensures fresh { IfOk result (λ o. IfSome o (λ v. IsFresh (all_in clauses.now) v.items)) }
    ensures room { IfOk result (λ o. IfSome o (λ v. HasMarks propagator.old.trail v.items)) }
    ensures back { IfOk result (λ o. OnSome o (ComesBack propagator.old propagator.new (all_in clauses.now))) }
{
    let len = propagator.trail.len;
    let mut decisions = Vec::new(alloc);
    if !descend(propagator, clauses, vars, hints, &mut decisions)? {
        return Ok(None);
    }
    let hint = tested(&propagator.trail.marks, vars, hints.candidate());
    propagator.trail.undo(len);
    let literals = learn(alloc, propagator, clauses, &decisions, hint)?;
    Ok(Some(literals))
}
