//! Making the literals of a clause false one after the other, each with all that it propagates.

ghost use Rattle.std.specs.Prelude.{◌≡◌, ◌<◌, ◌∷◌, [], true, false, length, IfSome, IfNone};
ghost use Rattle.sat_proof.specs.Premises.{all_in};
ghost use Rattle.sat_proof.specs.Propagator.{LeadsBack};
ghost use Rattle.sat_proof.specs.Status.{literal_at};
ghost use Rattle.sat_proof.specs.Trail.{HasMarks};
ghost use Rattle.sat_search.specs.Reach.{IsSettled, GoesOnFrom, FollowsWith, IsMetBehind};

use sat_proof::clause_status::{Value, value_at};
use sat_proof::premises::Premises;
use sat_proof::propagator::Propagator;

/// Makes the literal at a place false, and propagates; whether that leads to a conflict.
pub(crate) fn reach(
    propagator: &mut Propagator,
    clauses: &Premises<'_>,
    literals: &[i32],
    k: usize,
) -> bool
    requires settled { IsSettled propagator.old (all_in clauses.now) }
    requires below { k < length literals.now }
    requires room { HasMarks propagator.old.trail literals.now }
    ensures conflict { result ≡ true →
        FollowsWith propagator.old.trail.marks.items (all_in clauses.now) (literal_at literals.now k) }
    ensures from { result ≡ false →
        GoesOnFrom propagator.old.trail propagator.new.trail (all_in clauses.now) (literal_at literals.now k ∷ []) }
    ensures settled { result ≡ false → IsSettled propagator.new (all_in clauses.now) }
    ensures back { LeadsBack propagator.old propagator.new (all_in clauses.now) }
{
    match value_at(&propagator.trail.marks, literals, k) {
        Value::True => true,
        Value::False => false,
        Value::Open => {
            propagator.trail.deny(literals, k);
            propagator.propagate(clauses)
        }
    }
}

/// Makes the literals false in turn; the place of the one that leads to a conflict.
pub(crate) fn reach_all(
    propagator: &mut Propagator,
    clauses: &Premises<'_>,
    literals: &[i32],
) -> Option<usize>
    requires settled { IsSettled propagator.old (all_in clauses.now) }
    requires room { HasMarks propagator.old.trail literals.now }
    ensures below { IfSome result (λ k. k < length literals.now) }
    ensures met { IfSome result (IsMetBehind propagator.old.trail.marks.items (all_in clauses.now) literals.now) }
    ensures from { IfNone result
        (GoesOnFrom propagator.old.trail propagator.new.trail (all_in clauses.now) literals.now) }
    ensures settled { IfNone result (IsSettled propagator.new (all_in clauses.now)) }
    ensures back { LeadsBack propagator.old propagator.new (all_in clauses.now) }
{
    for k in 0..literals.len() {
        if reach(propagator, clauses, literals, k) {
            return Some(k);
        }
    }
    None
}
