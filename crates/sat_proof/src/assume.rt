//! The assumption of a question: each literal of a clause is false. Linear in the clause.

ghost use Rattle.std.specs.Prelude.{◌≡◌, true, false};
ghost use Rattle.sat_proof.specs.Propagation.{AreAssumed, DoClash};
ghost use Rattle.sat_proof.specs.Trail.{HasMarks, StaysOver};

use crate::clause_status::{Value, value_at};
use crate::trail::Trail;

/// Makes each literal false; whether one of them is true already, or the complement of another.
pub(crate) fn assume(trail: &mut Trail, literals: &[i32]) -> bool
    requires { HasMarks trail.old literals.now }
    ensures clash { result ≡ true → DoClash trail.old.marks.items literals.now }
    ensures done { result ≡ false → AreAssumed trail.old.marks.items trail.new.marks.items literals.now }
    ensures over { StaysOver trail.old trail.new }
    ensures read { trail.new.read ≡ trail.old.read }
{
    for k in 0..literals.len() {
        match value_at(&trail.marks, literals, k) {
            Value::True => return true,
            Value::False => {}
            Value::Open => trail.deny(literals, k),
        }
    }
    false
}
