//! The search: rounds until a formula is decided or the limit is reached.

ghost use Rattle.std.specs.Prelude.{◌≡◌, ◌<◌, ◌+◌, ◌*◌, ◌++◌, ◌∷◌, ◌≢◌, [], true, false, length, IfOk};
ghost use Rattle.std.specs.List.{All};
ghost use Rattle.sat_proof.specs.Assignment.{HasNoZero};
ghost use Rattle.sat_proof.specs.Lines.{IsReady};
ghost use Rattle.sat_proof.specs.Trail.{HaveMarks};
ghost use Rattle.sat_search.specs.Decide.{AreValues};
ghost use Rattle.sat_search.specs.Outcome.{IsOutcome};

use crate::hints::Hints;
use crate::outcome::Outcome;
use crate::round::round;
use base_lists::Memory;
use sat_proof::premises::Premises;
use sat_proof::propagator::Propagator;
use sat_proof::{Clause, Cnf, Exhausted, Log, Model, Refuted};
use std::alloc::{AllocError, Global};

/// A model of the formula, or a log that refutes it, or a fresh log of `limit` clauses, whichever comes first. A log
/// whose `limit`-th clause is empty refutes. Takes about 100 bytes for each variable, 24 for each clause of the
/// formula, and for each of the log 48 and four for each literal, in steps that double.
pub fn solve(alloc: Global, cnf: &Cnf, limit: u32) -> Result<Outcome, Memory>
    requires some { 0 < limit }
    ensures outcome { IfOk result (IsOutcome cnf.now.clauses cnf.now.vars limit) }
{
    let codes = 2 * (cnf.vars as usize) + 2;
    let query = cnf.clauses.as_slice();
    let mut propagator = Propagator::new(alloc, codes, query.len())?;
    propagator.clear();
    let refuted = propagator.start(query, &query[..0]);
    search(alloc, cnf, limit, &mut propagator, refuted)
}

/// Makes rounds until there is an answer.
fn search(
    alloc: Global,
    cnf: &Cnf,
    limit: u32,
    propagator: &mut Propagator,
    mut refuted: bool,
) -> Result<Outcome, Memory>
    requires room { HaveMarks propagator.old.trail cnf.now.clauses }
    requires no_zero { refuted ≡ false → All HasNoZero cnf.now.clauses }
    requires some { 0 < limit }
    requires codes { length propagator.old.trail.marks.items ≡ 2 * cnf.now.vars + 2 }
    requires ready { IsReady propagator.old refuted cnf.now.clauses }
    ensures { IfOk result (IsOutcome cnf.now.clauses cnf.now.vars limit) }
{
    let query = cnf.clauses.as_slice();
    let mut log: Vec<Clause> = Vec::new(alloc);
    let mut hints = Hints::new(alloc, cnf.vars as usize)?;
    'rounds: loop {
        if refuted {
            let log = close(alloc, log)?;
            return Ok(Outcome::Refuted(Refuted::from_log(cnf, log)));
        }
        let clauses = Premises {
            formula: query,
            log: &log,
        };
        match round(alloc, propagator, &clauses, cnf.vars as usize, &mut hints)? {
            None => {
                let values = values_of(alloc, &propagator.trail.marks, cnf.vars as usize)?;
                return Ok(Outcome::Model(Model::from_vec(values)));
            }
            Some(literals) => log.push(Clause::from_vec(literals))?,
        }
        if is_full(&log, limit) {
            return Ok(Outcome::Limit(Exhausted::from_log(cnf, Log::from_vec(log), limit)));
        }
        propagator.widen()?;
        refuted = propagator.advance(false, query, &log, log.len() - 1);
    }
}

/// The log with the empty clause after it.
fn close(alloc: Global, mut log: Vec<Clause>) -> Result<Log, AllocError>
    requires { All HasNoZero log.items }
    ensures { IfOk result (λ closed. closed ≡ log.items ++ [] ∷ []) }
{
    log.push(Clause::from_vec(Vec::new(alloc)))?;
    Ok(Log::from_vec(log))
}

/// Whether the log has as many clauses as the limit says.
fn is_full(log: &[Clause], limit: u32) -> bool
    ensures yes { result ≡ true → length log.now ≡ limit }
    ensures no { result ≡ false → length log.now ≢ limit }
{
    log.len() == limit as usize
}

/// The values that the trail gives to the variables.
fn values_of(alloc: Global, marks: &[bool], vars: usize) -> Result<Vec<bool>, AllocError>
    requires { length marks.now ≡ 2 * vars + 2 }
    ensures count { IfOk result (λ v. length v.items ≡ vars) }
    ensures values { IfOk result (λ v. AreValues marks.now vars v.items) }
{
    let mut values = Vec::new(alloc);
    for n in 0..vars {
        values.push(marks[2 * n + 3])?;
    }
    Ok(values)
}
