//! One more clause: its last open literal becomes true, or two open ones are watched. Linear in the clause.

ghost use Rattle.std.specs.Prelude.{◌≡◌, true, false};

use crate::clause_status::{Status, status_of};
use crate::propagator::Propagator;

impl Propagator {
    ghost use Rattle.sat_proof.specs.Closed.{IsFalse};
    ghost use Rattle.sat_proof.specs.Guard.{IsTakenIn};
    ghost use Rattle.sat_proof.specs.Trail.{HasMarks, StaysOver, held};
    ghost use Rattle.sat_proof.specs.Watch.{IsChained};

    /// Takes in a clause: makes its last literal true where the others are false, or watches two that are open; whether
    /// all are false.
    pub(crate) fn add_clause(&mut self, literals: &[i32]) -> bool
        requires room { HasMarks self.old.trail literals.now }
        requires chained { self.old.watch.on ≡ true → IsChained self.old.watch 0 0 }
        ensures conflict { result ≡ true → IsFalse (held self.old.trail) literals.now }
        ensures entry { result ≡ false →
            IsTakenIn self.old.trail self.new.trail self.old.watch self.new.watch literals.now }
        ensures over { StaysOver self.old.trail self.new.trail }
        ensures read { self.new.trail.read ≡ self.old.trail.read }
        ensures chained { self.new.watch.on ≡ true → IsChained self.new.watch 0 0 }
        ensures on { self.new.watch.on ≡ true → self.old.watch.on ≡ true }
    {
        match status_of(&self.trail.marks, literals) {
            Status::Met => {
                self.watch.skip();
                false
            }
            Status::False => true,
            Status::Unit(k) => {
                self.trail.affirm(literals, k);
                self.watch.skip();
                false
            }
            Status::Two(j, k) => {
                self.watch.add(literals, j, k);
                false
            }
        }
    }
}
