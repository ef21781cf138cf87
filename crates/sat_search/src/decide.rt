//! Deciding variables until all have a value or there is a conflict.

ghost use Rattle.std.specs.Prelude.{◌≡◌, ◌≤◌, ◌<◌, ◌+◌, ◌*◌, ◌++◌, ◌∷◌, [], ℕ, ℤ, true, false, length, neg_ℤ, IfOk};
ghost use Rattle.std.specs.Prelude.{IfSome, IfNone, OnOk};
ghost use Rattle.sat_proof.specs.Premises.{all_in};
ghost use Rattle.sat_proof.specs.Code.{is_false};
ghost use Rattle.sat_proof.specs.Propagator.{IsAtBase, LeadsBack};
ghost use Rattle.sat_proof.specs.Trail.{HasMarks};
ghost use Rattle.sat_search.specs.Decide.{IsLiteralOf, HasValue, HasNone, AreValued, IsNext, IsConflict};
ghost use Rattle.sat_search.specs.Learn.{last_of, front_of};
ghost use Rattle.sat_search.specs.Reach.{IsSettled, IsFrom};

use crate::found_conflict::FoundConflict;
use crate::hints::Hints;
use crate::reach::reach;
use sat_proof::premises::Premises;
use sat_proof::propagator::Propagator;
use std::alloc::AllocError;

/// Decides open variables, the lowest first or as the hints say, each to the value that it had last; whether there is a
/// conflict. The trail is then that before the last decision. A decision is kept as the literal that it makes false.
pub(crate) fn descend(
    propagator: &mut Propagator,
    clauses: &Premises<'_>,
    vars: usize,
    hints: &mut Hints,
    decisions: &mut Vec<i32>,
) -> Result<bool, AllocError>
    requires base { IsAtBase propagator.old (all_in clauses.now) }
    requires vars { vars ≤ 2147483647 }
    requires codes { length propagator.old.trail.marks.items ≡ 2 * vars + 2 }
    requires none { decisions.old.items ≡ [] }
    ensures settled { IfOk result (λ b. b ≡ false → IsSettled propagator.new (all_in clauses.now)) }
    ensures valued { IfOk result (λ b. b ≡ false → AreValued propagator.new.trail.marks.items vars) }
    ensures conflict { IfOk result (λ b.
        b ≡ true → IsConflict propagator.new.trail (all_in clauses.now) decisions.new.items) }
    ensures room { OnOk result (HasMarks propagator.old.trail decisions.new.items) }
    ensures back { OnOk result (LeadsBack propagator.old propagator.new (all_in clauses.now)) }
{
    let base = propagator.trail.len;
    let mut cursor = 0;
    'levels: loop {
        let hinted = hints.next_variable(&propagator.trail);
        match choose(&propagator.trail.marks, hinted, &mut cursor, vars) {
            None => return Ok(false),
            Some(n) => {
                push_decision(decisions, hints, n)?;
                if attempt(propagator, clauses, decisions, base, hints) {
                    return Ok(true);
                }
            }
        }
    }
}

/// Makes the last decision; whether it leads to a conflict. The trail is then as it was.
fn attempt(
    propagator: &mut Propagator,
    clauses: &Premises<'_>,
    decisions: &[i32],
    base: usize,
    hints: &mut Hints,
) -> bool
    requires settled { IsSettled propagator.old (all_in clauses.now) }
    requires filled { 0 < length decisions.now }
    requires from { IsFrom propagator.old.trail.marks.items (all_in clauses.now) (front_of decisions.now) }
    requires not_false { is_false propagator.old.trail.marks.items (last_of decisions.now) ≡ false }
    requires not_true { is_false propagator.old.trail.marks.items (neg_ℤ (last_of decisions.now)) ≡ false }
    requires room { HasMarks propagator.old.trail decisions.now }
    ensures conflict { result ≡ true → IsConflict propagator.new.trail (all_in clauses.now) decisions.now }
    ensures settled { result ≡ false → IsSettled propagator.new (all_in clauses.now) }
    ensures from { result ≡ false → IsFrom propagator.new.trail.marks.items (all_in clauses.now) decisions.now }
    ensures longer { result ≡ false → propagator.old.trail.len < propagator.new.trail.len }
    ensures back { LeadsBack propagator.old propagator.new (all_in clauses.now) }
{
    let len = propagator.trail.len;
    if reach(propagator, clauses, decisions, decisions.len() - 1) {
        hints.take_conflict(&FoundConflict {
            propagator,
            clauses,
            base,
            top: len,
        });
        propagator.trail.undo(len);
        return true;
    }
    false
}

/// The variable of the hint if it has no value, else the first one that has none. Those before the cursor have values.
fn choose(marks: &[bool], hinted: Option<usize>, cursor: &mut usize, vars: usize) -> Option<usize>
    requires vars { vars ≤ 2147483647 }
    requires codes { length marks.now ≡ 2 * vars + 2 }
    requires low { cursor.old ≤ vars }
    requires valued { AreValued marks.now cursor.old }
    ensures below { IfSome result (λ n. n < vars) }
    ensures here { IfSome result (HasNone marks.now) }
    ensures none { IfNone result (AreValued marks.now vars) }
    ensures low { cursor.new ≤ vars }
    ensures valued { AreValued marks.now cursor.new }
{
    if let Some(n) = hinted {
        if n < vars {
            if !has_value(marks, n) {
                return Some(n);
            }
        }
    }
    match next_open(marks, *cursor, vars) {
        Some(n) => {
            *cursor = n;
            Some(n)
        }
        None => None,
    }
}

/// The first variable from `from` on that has no value.
fn next_open(marks: &[bool], from: usize, vars: usize) -> Option<usize>
    requires vars { vars ≤ 2147483647 }
    requires codes { length marks.now ≡ 2 * vars + 2 }
    ensures next { IfSome result (IsNext marks.now from vars) }
    ensures none { IfNone result ((n : ℕ) → from ≤ n → n < vars → HasValue marks.now n) }
{
    for n in from..vars {
        if !has_value(marks, n) {
            return Some(n);
        }
    }
    None
}

fn has_value(marks: &[bool], n: usize) -> bool
    requires { 2 * n + 3 < length marks.now }
    ensures yes { result ≡ true → HasValue marks.now n }
    ensures no { result ≡ false → HasNone marks.now n }
{
    if marks[2 * n + 2] {
        return true;
    }
    marks[2 * n + 3]
}

/// One more decision.
fn push_decision(decisions: &mut Vec<i32>, hints: &Hints, n: usize) -> Result<(), AllocError>
    requires { n < 2147483647 }
    ensures { OnOk result ((l : ℤ) × IsLiteralOf n l × (decisions.new.items ≡ decisions.old.items ++ l ∷ [])) }
{
    let literal = (n + 1) as i32;
    if hints.is_true(n) {
        decisions.push(-literal)?;
    } else {
        decisions.push(literal)?;
    }
    Ok(())
}
