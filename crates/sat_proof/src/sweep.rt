//! Unit propagation without watches, by passes over all clauses until one changes nothing: the rounds times all
//! literals.

ghost use Rattle.std.specs.Prelude.{◌≡◌, true, false};
ghost use Rattle.std.specs.List.{All};
ghost use Rattle.sat_proof.specs.Premises.{all_in};
ghost use Rattle.sat_proof.specs.Closed.{IsQuiet, IsFalse};
ghost use Rattle.sat_proof.specs.Propagation.{IsGrowth, AreRefuted, IsRunning, IsVisit};
ghost use Rattle.sat_proof.specs.Trail.{HasMarks, HaveMarks, StaysOver, held};

use crate::clause_status::{Status, status_of};
use crate::premises::Premises;
use crate::trail::Trail;

/// Propagates until nothing changes; whether a clause became false.
pub(crate) fn sweep(trail: &mut Trail, clauses: &Premises<'_>) -> bool
    requires { HaveMarks trail.old (all_in clauses.now) }
    ensures conflict { result ≡ true → AreRefuted trail.old.marks.items (all_in clauses.now) }
    ensures growth { result ≡ false → IsGrowth trail.old.marks.items trail.new.marks.items (all_in clauses.now) }
    ensures quiet { result ≡ false → All (IsQuiet (held trail.new)) (all_in clauses.now) }
    ensures read { result ≡ false → trail.new.read ≡ trail.new.len }
    ensures over { StaysOver trail.old trail.new }
{
    'rounds: loop {
        let len = trail.len;
        if pass_once(trail, clauses) {
            return true;
        }
        if trail.len == len {
            trail.read = trail.len;
            return false;
        }
    }
}

/// Looks at each clause once; whether one is false. Each clause is then quiet unless one of its literals came during
/// the pass.
pub(crate) fn pass_once(trail: &mut Trail, clauses: &Premises<'_>) -> bool
    requires { HaveMarks trail.old (all_in clauses.now) }
    ensures conflict { result ≡ true → AreRefuted trail.old.marks.items (all_in clauses.now) }
    ensures running { result ≡ false → IsRunning trail.old trail.new (all_in clauses.now) trail.old.len (λ _. ⊥) }
    ensures over { StaysOver trail.old trail.new }
    ensures read { trail.new.read ≡ trail.old.read }
{
    for n in 0..clauses.len() {
        if visit(trail, clauses.literals(n)) {
            return true;
        }
    }
    false
}

/// Looks at a clause, and makes its last literal true where the others are false; whether all are.
pub(crate) fn visit(trail: &mut Trail, literals: &[i32]) -> bool
    requires { HasMarks trail.old literals.now }
    ensures conflict { result ≡ true → IsFalse (held trail.old) literals.now }
    ensures visit { result ≡ false → IsVisit trail.old trail.new literals.now }
    ensures over { StaysOver trail.old trail.new }
    ensures read { trail.new.read ≡ trail.old.read }
{
    match status_of(&trail.marks, literals) {
        Status::Met => false,
        Status::Two(_, _) => false,
        Status::False => true,
        Status::Unit(k) => {
            trail.affirm(literals, k);
            false
        }
    }
}
