//! What a clause may follow from, as slices.

ghost use Rattle.std.specs.Prelude.{◌≡◌, ◌<◌, length};
ghost use Rattle.sat_proof.specs.Assignment.{HasNoZero};
ghost use Rattle.sat_proof.specs.Log.{clause_at};

use crate::clause::Clause;

/// A formula's clauses, and a log's after them.
#[derive(Clone, Copy)]
pub struct Premises<'a> {
    pub formula: &'a [Clause],
    pub log: &'a [Clause],
}

impl<'a> Premises<'a> {
    ghost use Rattle.sat_proof.specs.Premises.{all_in};

    /// How many there are.
    pub fn len(&self) -> usize
        ensures { result ≡ length (all_in self.now) }
    {
        self.formula.len() + self.log.len()
    }

    /// The literals of clause n.
    pub fn literals(&self, n: usize) -> &'a [i32]
        requires { n < length (all_in self.now) }
        ensures value { result.now ≡ clause_at (all_in self.now) n }
        ensures no_zero { HasNoZero result.now }
    {
        if n < self.formula.len() {
            self.formula[n].as_slice()
        } else {
            self.log[n - self.formula.len()].as_slice()
        }
    }
}
