//! Whether a log names the variables of a formula alone, and a checker for it.

ghost use Rattle.std.specs.Prelude.{◌≡◌, ◌≤◌, ◌↔◌, IfOk, IsTrue, nat_abs};
ghost use Rattle.std.specs.List.{All};
ghost use Rattle.sat_proof.specs.Log.{Fit};

use base_lists::Memory;
use sat_proof::{Checker, Clause, Cnf, Log};
use std::alloc::Global;

/// Whether a log names variables up to this one alone.
pub fn fits(log: &Log, vars: u32) -> bool
    ensures { IsTrue result ↔ Fit vars log.now }
{
    let clauses = log.as_slice();
    'clauses: for place in 0..clauses.len() {
        if !clause_fits(clauses[place].as_slice(), vars) {
            return false;
        }
    }
    true
}

fn clause_fits(literals: &[i32], vars: u32) -> bool
    ensures { IsTrue result ↔ All (λ l. nat_abs l ≤ vars) literals.now }
{
    'literals: for literal in literals {
        if literal.unsigned_abs() > vars {
            return false;
        }
    }
    true
}

/// A checker with room for a formula and a log. Takes memory as `Checker::with_room` does.
pub fn checker_for(alloc: Global, query: &Cnf, log: &Log) -> Result<Checker, Memory>
    requires { query.now.vars ≤ 2147483647 }
    ensures { IfOk result (λ checker. checker ≡ query.now.vars) }
{
    let formula = query.clauses.as_slice();
    let count = formula.len().saturating_add(log.as_slice().len());
    let literals = literals_of(formula).saturating_add(literals_of(log.as_slice()));
    Checker::with_room(alloc, query.vars, count, literals)
}

fn literals_of(clauses: &[Clause]) -> usize {
    let mut count: usize = 0;
    'clauses: for place in 0..clauses.len() {
        count = count.saturating_add(clauses[place].as_slice().len());
    }
    count
}
