//! Clauses that a log refutes, kept so that the log serves again: it refutes each formula that has all of them.

ghost use Rattle.std.specs.Prelude.{◌≡◌, ◌<◌, IfOk, IfSome, IsTrue, length};
ghost use Rattle.std.specs.Bool.{Decides};
ghost use Rattle.sat_proof.specs.Log.{Fit, Refutes, clause_at};
ghost use Rattle.sat_query.specs.Core.{AreAmong, CoreView};
ghost use Rattle.sat_query.specs.Decided.{IsDecided};

use crate::copies::copied;
use base_lists::Memory;
use sat_proof::{Clause, Cnf, Log, Refuted};
use sat_search::Outcome;
use std::alloc::Global;
use std::marker::Model;

/// A formula, and a log that refutes it. Contracts see both.
#[derive(Drop)]
pub(crate) struct Core {
    formula: Cnf,
    log: Log,
}

impl Model for Core {
    ghost use Rattle.sat_query.specs.Core.{CoreView, IsCore};

    ghost Value = { CoreView };

    ghost view = { λ core. record { formula = core.formula; log = core.log } };

    ghost invariant = { λ core. IsCore (record { formula = core.formula; log = core.log }) };
}

impl Core {
    /// A formula with a log that refutes it.
    pub(crate) fn new(formula: Cnf, log: Log) -> Core
        requires refutes { Refutes formula.clauses log }
        requires fits { Fit formula.vars log }
        ensures { result ≡ record { formula = formula; log = log } }
    {
        Core { formula, log }
    }

    /// The log once more, which refutes a formula that has all clauses of this one, and as many variables; none for
    /// another formula. Takes the memory of the log, and time linear in the formula.
    pub(crate) fn refute(&self, alloc: Global, formula: &Cnf) -> Result<Option<Outcome>, Memory>
        ensures { IfOk result (λ found. IfSome found (IsDecided formula.now)) }
    {
        let some = self.formula.clauses.as_slice();
        let all = formula.clauses.as_slice();
        if self.formula.vars != formula.vars || !has_all(all, some) {
            return Ok(None);
        }
        let log = Log::from_vec(copied(alloc, self.log.as_slice())?);
        Ok(Some(Outcome::Refuted(Refuted::from_log(formula, log))))
    }
}

/// Whether all of some clauses stand among others, in the same order.
fn has_all(all: &[Clause], some: &[Clause]) -> bool
    ensures { IsTrue result → AreAmong some.now all.now }
{
    let mut found = 0;
    'clauses: for clause in all {
        if is_at(some, found, clause) {
            found += 1;
        }
    }
    found == some.len()
}

/// Whether a clause stands at a place.
fn is_at(clauses: &[Clause], place: usize, clause: &Clause) -> bool
    ensures within { IsTrue result → place < length clauses.now }
    ensures same { IsTrue result → clause_at clauses.now place ≡ clause.now }
{
    place < clauses.len() && is_same(clauses[place].as_slice(), clause.as_slice())
}

fn is_same(first: &[i32], second: &[i32]) -> bool
    ensures { Decides result (first.now ≡ second.now) }
{
    first == second
}
