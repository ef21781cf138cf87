//! What a formula's clauses and a log's first ones propagate with nothing assumed: the trail on which every question
//! about the next clause is asked. Each clause that is taken in costs its own propagation.

ghost use Rattle.std.specs.Prelude.{◌≡◌, ◌<◌, ◌+◌, ◌++◌, [], true, false, length};
ghost use Rattle.std.specs.List.{All};

use crate::clause::Clause;
use crate::premises::Premises;
use crate::propagator::Propagator;

impl Propagator {
    ghost use Rattle.sat_proof.specs.Assignment.{HasNoZero};
    ghost use Rattle.sat_proof.specs.Lines.{IsReady};
    ghost use Rattle.sat_proof.specs.Log.{before};
    ghost use Rattle.sat_proof.specs.Propagation.{AreRefuted, IsGrowth};
    ghost use Rattle.sat_proof.specs.Propagator.{CanPropagate, IsUnstarted};
    ghost use Rattle.sat_proof.specs.Trail.{HaveMarks, StaysOver};

    /// Puts on the trail what a formula's clauses propagate with nothing assumed; whether they conflict.
    pub fn start(&mut self, query: &[Clause], none: &[Clause]) -> bool
        requires blank { IsUnstarted self.old }
        requires query { HaveMarks self.old.trail query.now }
        requires log { none.now ≡ [] }
        ensures ready { IsReady self.new result (query.now ++ none.now) }
        ensures no_zero { result ≡ false → All HasNoZero query.now }
        ensures size { length self.new.trail.marks.items ≡ length self.old.trail.marks.items }
    {
        if self.gather(query) {
            return true;
        }
        self.propagate(&Premises {
            formula: query,
            log: none,
        })
    }

    /// Takes in a formula's clauses; whether one is false.
    fn gather(&mut self, query: &[Clause]) -> bool
        requires blank { IsUnstarted self.old }
        requires query { HaveMarks self.old.trail query.now }
        ensures conflict { result ≡ true → AreRefuted self.old.trail.marks.items query.now }
        ensures no_zero { result ≡ false → All HasNoZero query.now }
        ensures growth { result ≡ false → IsGrowth self.old.trail.marks.items self.new.trail.marks.items query.now }
        ensures ready { result ≡ false → CanPropagate self.new query.now }
        ensures over { StaysOver self.old.trail self.new.trail }
    {
        for n in 0..query.len() {
            if self.add_clause(query[n].as_slice()) {
                return true;
            }
        }
        false
    }

    /// Takes clause k of the log among the clauses; whether they conflict.
    pub fn advance(&mut self, refuted: bool, query: &[Clause], log: &[Clause], k: usize) -> bool
        requires ready { IsReady self.old refuted (before query.now log.now k) }
        requires below { k < length log.now }
        requires query { HaveMarks self.old.trail query.now }
        requires log { HaveMarks self.old.trail log.now }
        ensures ready { IsReady self.new result (before query.now log.now (k + 1)) }
        ensures size { length self.new.trail.marks.items ≡ length self.old.trail.marks.items }
    {
        if refuted {
            return true;
        }
        if self.add_clause(log[k].as_slice()) {
            return true;
        }
        self.propagate(&Premises {
            formula: query,
            log: &log[..k + 1],
        })
    }
}
