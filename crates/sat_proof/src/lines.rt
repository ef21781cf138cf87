//! The first line of a log that breaks the rules, found line by line with the earlier ones taken in.

ghost use Rattle.std.specs.Prelude.{◌≡◌, ◌↔◌, ◌<◌, [], ℕ, true, false, length, IfSome, IfNone, IsTrue};
ghost use Rattle.sat_proof.specs.Log.{EndsEmpty};

use crate::clause::Clause;
use crate::earlier_clauses::EarlierClauses;
use crate::premises::Premises;
use crate::propagator::Propagator;

impl Propagator {
    ghost use Rattle.sat_proof.specs.Lines.{IsFirst, IsReady, ServesEarlier};
    ghost use Rattle.sat_proof.specs.Log.{DoesFollow, IsFreshAt, Refutes, AreFresh, IsBadLine, IsStaleLine, before};
    ghost use Rattle.sat_proof.specs.Propagator.{ComesBack, IsAtBase, IsUnstarted};
    ghost use Rattle.sat_proof.specs.Trail.{HaveMarks};

    /// The first line at which the log doesn't refute.
    pub(crate) fn bad_line(&mut self, query: &[Clause], log: &[Clause]) -> Option<usize>
        requires blank { IsUnstarted self.old }
        requires query { HaveMarks self.old.trail query.now }
        requires log { HaveMarks self.old.trail log.now }
        ensures none { IfNone result (Refutes query.now log.now) }
        ensures some { IfSome result (λ line. IsBadLine query.now log.now line) }
        ensures size { length self.new.trail.marks.items ≡ length self.old.trail.marks.items }
    {
        if let Some(k) = self.first_bad(query, log) {
            return Some(k + 1);
        }
        if ends_empty(log) {
            None
        } else {
            Some(log.len() + 1)
        }
    }

    /// The place of the first clause that doesn't follow.
    fn first_bad(&mut self, query: &[Clause], log: &[Clause]) -> Option<usize>
        requires blank { IsUnstarted self.old }
        requires query { HaveMarks self.old.trail query.now }
        requires log { HaveMarks self.old.trail log.now }
        ensures none { IfNone result ((k : ℕ) → k < length log.now → DoesFollow query.now log.now k) }
        ensures some { IfSome result (λ k. IsFirst (DoesFollow query.now log.now) (length log.now) k) }
        ensures size { length self.new.trail.marks.items ≡ length self.old.trail.marks.items }
    {
        let mut refuted = self.start(query, &log[..0]);
        for k in 0..log.len() {
            if !self.does_follow(refuted, query, log, k) {
                return Some(k);
            }
            refuted = self.advance(refuted, query, log, k);
        }
        None
    }

    /// Whether clause k of the log follows.
    fn does_follow(&mut self, refuted: bool, query: &[Clause], log: &[Clause], k: usize) -> bool
        requires ready { IsReady self.old refuted (before query.now log.now k) }
        requires below { k < length log.now }
        requires log { HaveMarks self.old.trail log.now }
        ensures yes { result ≡ true → DoesFollow query.now log.now k }
        ensures no { result ≡ false → DoesFollow query.now log.now k → ⊥ }
        ensures ready { IsReady self.new refuted (before query.now log.now k) }
        ensures size { length self.new.trail.marks.items ≡ length self.old.trail.marks.items }
    {
        let literals = log[k].as_slice();
        if refuted {
            return true;
        }
        let clauses = Premises {
            formula: query,
            log: &log[..k],
        };
        self.follows(&clauses, literals, &literals[..0])
    }

    /// The first line at which the log isn't fresh, or hasn't as many clauses.
    pub(crate) fn stale_line(
        &mut self,
        earlier: &mut EarlierClauses,
        query: &[Clause],
        log: &[Clause],
        limit: u32,
    ) -> Option<usize>
        requires blank { IsUnstarted self.old }
        requires earlier { ServesEarlier earlier.old [] }
        requires sizes { length earlier.old.seen.marks.items ≡ length self.old.trail.marks.items }
        requires query { HaveMarks self.old.trail query.now }
        requires log { HaveMarks self.old.trail log.now }
        ensures fresh { IfNone result (AreFresh query.now log.now) }
        ensures count { IfNone result (length log.now ≡ limit) }
        ensures some { IfSome result (λ line. IsStaleLine query.now log.now limit line) }
        ensures size { length self.new.trail.marks.items ≡ length self.old.trail.marks.items }
        ensures sizes { length earlier.new.seen.marks.items ≡ length earlier.old.seen.marks.items }
    {
        if let Some(k) = self.first_stale(earlier, query, log) {
            return Some(k + 1);
        }
        if log.len() == limit as usize {
            None
        } else {
            Some(log.len() + 1)
        }
    }

    /// The place of the first clause that isn't fresh. Over clauses that conflict none is, since each shorter one
    /// follows too.
    fn first_stale(
        &mut self,
        earlier: &mut EarlierClauses,
        query: &[Clause],
        log: &[Clause],
    ) -> Option<usize>
        requires blank { IsUnstarted self.old }
        requires earlier { ServesEarlier earlier.old [] }
        requires sizes { length earlier.old.seen.marks.items ≡ length self.old.trail.marks.items }
        requires query { HaveMarks self.old.trail query.now }
        requires log { HaveMarks self.old.trail log.now }
        ensures none { IfNone result (AreFresh query.now log.now) }
        ensures some { IfSome result (λ k. IsFirst (IsFreshAt query.now log.now) (length log.now) k) }
        ensures size { length self.new.trail.marks.items ≡ length self.old.trail.marks.items }
        ensures sizes { length earlier.new.seen.marks.items ≡ length earlier.old.seen.marks.items }
    {
        earlier.load(query);
        let mut refuted = self.start(query, &log[..0]);
        for k in 0..log.len() {
            if refuted {
                return Some(k);
            }
            if !self.is_fresh_at(earlier, query, log, k) {
                return Some(k);
            }
            refuted = self.advance(refuted, query, log, k);
            earlier.list(query, log, k);
        }
        None
    }

    /// Whether clause k of the log is fresh.
    fn is_fresh_at(
        &mut self,
        earlier: &mut EarlierClauses,
        query: &[Clause],
        log: &[Clause],
        k: usize,
    ) -> bool
        requires base { IsAtBase self.old (before query.now log.now k) }
        requires earlier { ServesEarlier earlier.old (before query.now log.now k) }
        requires sizes { length earlier.old.seen.marks.items ≡ length self.old.trail.marks.items }
        requires below { k < length log.now }
        requires log { HaveMarks self.old.trail log.now }
        ensures yes { result ≡ true → IsFreshAt query.now log.now k }
        ensures no { result ≡ false → IsFreshAt query.now log.now k → ⊥ }
        ensures back { ComesBack self.old self.new (before query.now log.now k) }
        ensures earlier { ServesEarlier earlier.new (before query.now log.now k) }
        ensures sizes { length earlier.new.seen.marks.items ≡ length earlier.old.seen.marks.items }
    {
        let clauses = Premises {
            formula: query,
            log: &log[..k],
        };
        self.is_fresh(earlier, &clauses, log[k].as_slice())
    }
}

fn ends_empty(log: &[Clause]) -> bool
    ensures { IsTrue result ↔ EndsEmpty log.now }
{
    let count = log.len();
    if count == 0 {
        return false;
    }
    let literals = log[count - 1].as_slice();
    literals.len() == 0
}
