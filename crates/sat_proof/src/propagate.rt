//! Unit propagation with two watched literals: each literal that became false is read once, and the clauses that watch
//! it are looked at. Linear in their literals. Premises come in two parts, a formula's and a log's.

ghost use Rattle.std.specs.Prelude.{◌≡◌, ◌≢◌, ◌<◌, ◌*◌, ◌/◌, ℕ, true, false, pos, length};

use crate::premises::Premises;
use crate::propagator::Propagator;
use crate::sweep::sweep;
use crate::watched_clause::handle;

impl Propagator {
    ghost use Rattle.sat_proof.specs.Premises.{all_in};
    ghost use Rattle.sat_proof.specs.Guard.{IsPropagatingFrom, IsVisited, IsAnyFalse};
    ghost use Rattle.sat_proof.specs.Propagation.{AreRefuted};
    ghost use Rattle.sat_proof.specs.Propagator.{AreWaiting, CanPropagate, HasPropagated, LeadsBack};
    ghost use Rattle.sat_proof.specs.Trail.{HaveMarks, StaysOver, held};
    ghost use Rattle.sat_proof.specs.Watch.{IsLaced, IsPaired, watched};

    /// Propagates until nothing changes; whether a clause became false. With the watches off, by passes over all
    /// clauses.
    pub fn propagate(&mut self, clauses: &Premises<'_>) -> bool
        requires { CanPropagate self.old (all_in clauses.now) }
        ensures conflict { result ≡ true → AreRefuted self.old.trail.marks.items (all_in clauses.now) }
        ensures done { result ≡ false → HasPropagated self.old self.new (all_in clauses.now) }
        ensures back { LeadsBack self.old self.new (all_in clauses.now) }
    {
        if self.watch.on {
            self.read_trail(clauses)
        } else {
            sweep(&mut self.trail, clauses)
        }
    }

    /// Reads the trail to its end; whether a clause became false.
    fn read_trail(&mut self, clauses: &Premises<'_>) -> bool
        requires on { self.old.watch.on ≡ true }
        requires ready { CanPropagate self.old (all_in clauses.now) }
        ensures conflict { result ≡ true → AreRefuted self.old.trail.marks.items (all_in clauses.now) }
        ensures done { result ≡ false → HasPropagated self.old self.new (all_in clauses.now) }
        ensures back { LeadsBack self.old self.new (all_in clauses.now) }
    {
        while self.trail.read < self.trail.len {
            let code = self.trail.next_code();
            let count = self.watch.count(code);
            let head = self.watch.detach(code);
            if self.visit_chain(clauses, head, count) {
                return true;
            }
        }
        false
    }

    /// Looks at the clause of each entry of a loose chain; whether one is false.
    fn visit_chain(&mut self, clauses: &Premises<'_>, head: usize, count: usize) -> bool
        requires on { self.old.watch.on ≡ true }
        requires room { HaveMarks self.old.trail (all_in clauses.now) }
        requires laced { IsLaced self.old.watch (all_in clauses.now) head count }
        requires waiting { AreWaiting self.old (all_in clauses.now) head }
        ensures conflict { result ≡ true → AreRefuted self.old.trail.marks.items (all_in clauses.now) }
        ensures tracing { result ≡ false →
            IsPropagatingFrom self.old.trail self.new.trail self.new.watch (all_in clauses.now) self.old.trail.read }
        ensures read { self.new.trail.read ≡ self.old.trail.read }
        ensures back { LeadsBack self.old self.new (all_in clauses.now) }
    {
        let mut at = head;
        let mut left = count;
        while left > 0 {
            let entry = at - 1;
            let next = self.watch.nexts[entry];
            if self.visit_entry(clauses, entry) {
                self.watch.restore(at, left);
                return true;
            }
            self.watch.link(entry);
            at = next;
            left -= 1;
        }
        false
    }

    /// Looks at the clause of an entry; whether it is false.
    fn visit_entry(&mut self, clauses: &Premises<'_>, entry: usize) -> bool
        requires room { HaveMarks self.old.trail (all_in clauses.now) }
        requires used { self.old.watch.used ≡ 2 * length (all_in clauses.now) }
        requires pairs { (n : ℕ) → n < length (all_in clauses.now) → IsPaired self.old.watch (all_in clauses.now) n }
        requires entry { entry < self.old.watch.used }
        requires some { watched self.old.watch entry ≢ pos 0 }
        ensures conflict { result ≡ true → IsAnyFalse (held self.old.trail) (all_in clauses.now) }
        ensures same { result ≡ true → self.new.watch ≡ self.old.watch }
        ensures look { result ≡ false →
            IsVisited self.old.trail self.new.trail self.old.watch self.new.watch (all_in clauses.now) entry }
        ensures over { StaysOver self.old.trail self.new.trail }
        ensures read { self.new.trail.read ≡ self.old.trail.read }
    {
        let twin = self.watch.twin(entry);
        handle(
            &mut self.trail,
            &mut self.watch,
            clauses.literals(entry / 2),
            entry,
            twin,
        )
    }
}
