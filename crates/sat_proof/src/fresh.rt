//! Whether a clause of a log is fresh: new among the earlier clauses, which the index finds by its rarest literal, and
//! tight.

ghost use Rattle.std.specs.Prelude.{◌≡◌, ◌↔◌, ◌<◌, ◌≤◌, true, false, length, IsTrue};
ghost use Rattle.std.specs.List.{All};
ghost use Rattle.sat_proof.specs.Premises.{all_in};
ghost use Rattle.sat_proof.specs.Closed.{IsFalse};
ghost use Rattle.sat_proof.specs.Code.{HasRoom, HaveRoom, is_false};
ghost use Rattle.sat_proof.specs.Fresh.{IsNew, IsStale, IsCovered, IsUncovered, IsUnmatched, AreUncovered};
ghost use Rattle.sat_proof.specs.Index.{IsIndexed, Serves, IsInChain};
ghost use Rattle.sat_proof.specs.Trail.{HasMarks, HaveMarks, IsSameTrail, IsEmpty, StaysOver};

use crate::assume::assume;
use crate::clause_status::is_marked;
use crate::earlier_clauses::EarlierClauses;
use crate::index::Index;
use crate::premises::Premises;
use crate::propagator::Propagator;
use crate::trail::Trail;

impl Propagator {
    ghost use Rattle.sat_proof.specs.Lines.{ServesEarlier};
    ghost use Rattle.sat_proof.specs.Log.{IsFresh};
    ghost use Rattle.sat_proof.specs.Propagator.{ComesBack, IsAtBase};

    /// Whether the clause is fresh over the clauses.
    pub(crate) fn is_fresh(
        &mut self,
        earlier: &mut EarlierClauses,
        clauses: &Premises<'_>,
        literals: &[i32],
    ) -> bool
        requires base { IsAtBase self.old (all_in clauses.now) }
        requires earlier { ServesEarlier earlier.old (all_in clauses.now) }
        requires sizes { length earlier.old.seen.marks.items ≡ length self.old.trail.marks.items }
        requires room { HasMarks self.old.trail literals.now }
        ensures yes { result ≡ true → IsFresh (all_in clauses.now) literals.now }
        ensures no { result ≡ false → IsFresh (all_in clauses.now) literals.now → ⊥ }
        ensures back { ComesBack self.old self.new (all_in clauses.now) }
        ensures earlier { ServesEarlier earlier.new (all_in clauses.now) }
        ensures sizes { length earlier.new.seen.marks.items ≡ length earlier.old.seen.marks.items }
    {
        if literals.len() == 0 {
            return false;
        }
        if !is_new(&mut earlier.seen, &earlier.index, clauses, literals) {
            return false;
        }
        let none = &literals[..0];
        if !self.follows(clauses, literals, none) {
            return false;
        }
        self.is_tight(clauses, literals)
    }
}

/// Whether the clause is no tautology, and no clause equals it as a set. A clause that lies within it is taken for one
/// that equals it: over such a one no clause is tight.
fn is_new(seen: &mut Trail, index: &Index, clauses: &Premises<'_>, literals: &[i32]) -> bool
    requires empty { IsEmpty seen.old }
    requires filled { 0 < length literals.now }
    requires clauses { HaveMarks seen.old (all_in clauses.now) }
    requires room { HasMarks seen.old literals.now }
    requires sizes { length index.now.heads.items ≡ length seen.old.marks.items }
    requires served { Serves index.now (all_in clauses.now) }
    ensures yes { result ≡ true → IsNew (all_in clauses.now) literals.now }
    ensures no { result ≡ false → IsStale (all_in clauses.now) literals.now }
    ensures kept { IsSameTrail seen.old seen.new }
{
    let answer = marks_new(seen, index, clauses, literals);
    seen.undo(0);
    answer
}

fn marks_new(seen: &mut Trail, index: &Index, clauses: &Premises<'_>, literals: &[i32]) -> bool
    requires empty { IsEmpty seen.old }
    requires filled { 0 < length literals.now }
    requires clauses { HaveMarks seen.old (all_in clauses.now) }
    requires room { HasMarks seen.old literals.now }
    requires sizes { length index.now.heads.items ≡ length seen.old.marks.items }
    requires served { Serves index.now (all_in clauses.now) }
    ensures yes { result ≡ true → IsNew (all_in clauses.now) literals.now }
    ensures no { result ≡ false → IsStale (all_in clauses.now) literals.now }
    ensures over { StaysOver seen.old seen.new }
{
    if assume(seen, literals) {
        return false;
    }
    !finds_covered(&seen.marks, index, clauses, literals)
}

/// Whether all literals of some clause are marked. Not every clause is looked at: one that doesn't hold all these
/// literals may be passed over.
fn finds_covered(marks: &[bool], index: &Index, clauses: &Premises<'_>, literals: &[i32]) -> bool
    requires filled { 0 < length literals.now }
    requires clauses { HaveRoom (length marks.now) (all_in clauses.now) }
    requires room { All (HasRoom (length marks.now)) literals.now }
    requires sizes { length index.now.heads.items ≡ length marks.now }
    requires served { Serves index.now (all_in clauses.now) }
    ensures yes { result ≡ true → IsCovered marks.now (all_in clauses.now) }
    ensures no { result ≡ false → IsUnmatched marks.now (all_in clauses.now) literals.now }
{
    if index.on {
        let k = index.rarest(literals);
        let head = index.head_at(literals, k);
        chain_covers(marks, index, clauses, head)
    } else {
        covers_any(marks, clauses)
    }
}

/// Whether all literals of some clause of a chain are marked.
fn chain_covers(marks: &[bool], index: &Index, clauses: &Premises<'_>, head: usize) -> bool
    requires clauses { HaveRoom (length marks.now) (all_in clauses.now) }
    requires indexed { IsIndexed index.now (all_in clauses.now) }
    requires head { head ≤ index.now.used }
    ensures yes { result ≡ true → IsCovered marks.now (all_in clauses.now) }
    ensures no { result ≡ false → AreUncovered marks.now (all_in clauses.now) (IsInChain index.now head) }
{
    let mut at = head;
    while at > 0 {
        let owner = index.owners[at - 1];
        if covers(marks, clauses.literals(owner)) {
            return true;
        }
        at = index.nexts[at - 1];
    }
    false
}

/// Whether all literals of some clause are marked.
fn covers_any(marks: &[bool], clauses: &Premises<'_>) -> bool
    requires { HaveRoom (length marks.now) (all_in clauses.now) }
    ensures yes { result ≡ true → IsCovered marks.now (all_in clauses.now) }
    ensures no { result ≡ false → IsUncovered marks.now (all_in clauses.now) }
{
    for n in 0..clauses.len() {
        if covers(marks, clauses.literals(n)) {
            return true;
        }
    }
    false
}

/// Whether all literals of the clause are marked.
fn covers(marks: &[bool], literals: &[i32]) -> bool
    requires room { All (HasRoom (length marks.now)) literals.now }
    ensures { IsTrue result ↔ IsFalse (is_false marks.now) literals.now }
{
    for k in 0..literals.len() {
        if !is_marked(marks, literals, k) {
            return false;
        }
    }
    true
}
