//! Whether a clause follows, and whether it is tight: one propagation, and one for each entry left out.

ghost use Rattle.std.specs.Prelude.{◌≡◌, ◌++◌, true, false};

use crate::assume::assume;
use crate::premises::Premises;
use crate::propagator::Propagator;

impl Propagator {
    ghost use Rattle.sat_proof.specs.Premises.{all_in};
    ghost use Rattle.sat_proof.specs.Closed.{NoneResists};
    ghost use Rattle.sat_proof.specs.Follows.{Follows, IsTight};
    ghost use Rattle.sat_proof.specs.Propagator.{ComesBack, IsAtBase, LeadsBack};
    ghost use Rattle.sat_proof.specs.Trail.{HasMarks};

    /// Whether no shorter clause, with one of the entries left out, follows.
    pub(crate) fn is_tight(&mut self, clauses: &Premises<'_>, literals: &[i32]) -> bool
        requires base { IsAtBase self.old (all_in clauses.now) }
        requires room { HasMarks self.old.trail literals.now }
        ensures yes { result ≡ true → IsTight (all_in clauses.now) literals.now }
        ensures no { result ≡ false → IsTight (all_in clauses.now) literals.now → ⊥ }
        ensures back { ComesBack self.old self.new (all_in clauses.now) }
    {
        for k in 0..literals.len() {
            let left = &literals[..k];
            let right = &literals[k + 1..];
            if self.follows(clauses, left, right) {
                return false;
            }
        }
        true
    }

    /// Whether the clause of both parts follows from the clauses.
    pub(crate) fn follows(&mut self, clauses: &Premises<'_>, left: &[i32], right: &[i32]) -> bool
        requires base { IsAtBase self.old (all_in clauses.now) }
        requires left { HasMarks self.old.trail left.now }
        requires right { HasMarks self.old.trail right.now }
        ensures yes { result ≡ true → Follows (all_in clauses.now) (left.now ++ right.now) }
        ensures no { result ≡ false → Follows (all_in clauses.now) (left.now ++ right.now) → ⊥ }
        ensures back { ComesBack self.old self.new (all_in clauses.now) }
    {
        let len = self.trail.len;
        let conflict = self.is_refuted(clauses, left, right);
        self.trail.undo(len);
        conflict
    }

    /// Whether assuming the complements of both parts leads to a conflict.
    fn is_refuted(&mut self, clauses: &Premises<'_>, left: &[i32], right: &[i32]) -> bool
        requires base { IsAtBase self.old (all_in clauses.now) }
        requires left { HasMarks self.old.trail left.now }
        requires right { HasMarks self.old.trail right.now }
        ensures yes { result ≡ true → NoneResists (all_in clauses.now) (left.now ++ right.now) }
        ensures no { result ≡ false → NoneResists (all_in clauses.now) (left.now ++ right.now) → ⊥ }
        ensures back { LeadsBack self.old self.new (all_in clauses.now) }
    {
        if assume(&mut self.trail, left) {
            return true;
        }
        if assume(&mut self.trail, right) {
            return true;
        }
        self.propagate(clauses)
    }
}
