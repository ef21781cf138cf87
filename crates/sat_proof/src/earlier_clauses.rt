//! The earlier clauses of a log: the index of the clauses that hold a literal, and marks for a clause that is looked
//! for among them.

ghost use Rattle.std.specs.Prelude.{◌≡◌, ◌<◌, ◌+◌, [], length, IfOk};

use crate::clause::Clause;
use crate::index::Index;
use crate::trail::Trail;
use std::alloc::{AllocError, Global};

/// Marks and an index for the same literals.
#[derive(Drop)]
pub(crate) struct EarlierClauses {
    pub(crate) seen: Trail,
    pub(crate) index: Index,
    ghost same_size: { length index.heads.items ≡ length seen.marks.items },
}

impl EarlierClauses {
    ghost use Rattle.sat_proof.specs.Lines.{ServesEarlier};
    ghost use Rattle.sat_proof.specs.Log.{before};
    ghost use Rattle.sat_proof.specs.Trail.{HaveMarks};

    /// Room for as many codes, and in the index as many literals. Takes 25 bytes for each code, and 16 for each
    /// literal.
    pub(crate) fn new(
        alloc: Global,
        codes: usize,
        literals: usize,
    ) -> Result<EarlierClauses, AllocError>
        ensures { IfOk result (λ earlier. length earlier.seen.marks.items ≡ codes) }
    {
        let seen = Trail::new(alloc, codes)?;
        let index = Index::new(alloc, codes, literals)?;
        Ok(EarlierClauses { seen, index })
    }

    /// There are no clauses.
    pub(crate) fn clear(&mut self)
        ensures none { ServesEarlier self.new [] }
        ensures size { length self.new.seen.marks.items ≡ length self.old.seen.marks.items }
    {
        self.seen.clear();
        self.index.clear();
    }

    /// Takes in the clauses of a formula.
    pub(crate) fn load(&mut self, query: &[Clause])
        requires none { ServesEarlier self.old [] }
        requires query { HaveMarks self.old.seen query.now }
        ensures query { ServesEarlier self.new query.now }
        ensures size { length self.new.seen.marks.items ≡ length self.old.seen.marks.items }
    {
        self.index.load(query);
    }

    /// Takes in clause k of the log.
    pub(crate) fn list(&mut self, query: &[Clause], log: &[Clause], k: usize)
        requires earlier { ServesEarlier self.old (before query.now log.now k) }
        requires below { k < length log.now }
        requires log { HaveMarks self.old.seen log.now }
        ensures earlier { ServesEarlier self.new (before query.now log.now (k + 1)) }
        ensures size { length self.new.seen.marks.items ≡ length self.old.seen.marks.items }
    {
        self.index.add(query.len() + k, log[k].as_slice());
    }
}
