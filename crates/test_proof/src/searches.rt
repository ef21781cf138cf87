//! Formulas that are solved, each answer checked: a model clause by clause, a log by the checker.

ghost use Rattle.std.specs.Prelude.{◌≡◌, IfOk};

use crate::answer::Answer;
use base_lists::Memory;
use sat_proof::{Checker, Clause, Cnf};
use sat_search::{Outcome, solve};
use std::alloc::Global;

/// The outcome within the limit; a log that the checker refuses has its line.
pub(crate) fn solved(alloc: Global, formula: &Cnf, limit: u32) -> Result<Answer, Memory> {
    if limit == 0 {
        return Ok(Answer::Unread);
    }
    match solve(alloc, formula, limit)? {
        Outcome::Model(model) => Ok(if is_model(formula, model.into_vec().as_slice()) {
            Answer::Model
        } else {
            Answer::NoModel
        }),
        Outcome::Refuted(token) => {
            let log = token.into_log();
            let mut checker = roomy(alloc, formula, log.as_slice())?;
            match checker.check(formula, log) {
                Ok(token) => {
                    let _log = token.into_log();
                    Ok(Answer::Refuted)
                }
                Err(bad) => Ok(Answer::Line(bad.line)),
            }
        }
        Outcome::Limit(token) => {
            let log = token.into_log();
            let mut checker = roomy(alloc, formula, log.as_slice())?;
            match checker.check_fresh(formula, log, limit) {
                Ok(token) => {
                    let _log = token.into_log();
                    Ok(Answer::Limit)
                }
                Err(bad) => Ok(Answer::Line(bad.line)),
            }
        }
    }
}

/// How long the log is that refutes a formula within the limit.
pub(crate) fn log_of(alloc: Global, formula: &Cnf, limit: u32) -> Result<Answer, Memory> {
    if limit == 0 {
        return Ok(Answer::Unread);
    }
    match solve(alloc, formula, limit)? {
        Outcome::Model(_) => Ok(Answer::Model),
        Outcome::Refuted(token) => {
            let log = token.into_log();
            let clauses = log.as_slice();
            Ok(Answer::Log {
                clauses: clauses.len(),
                literals: literals_in(clauses),
            })
        }
        Outcome::Limit(token) => {
            let _log = token.into_log();
            Ok(Answer::Limit)
        }
    }
}

/// A checker with room for a formula and a log.
fn roomy(alloc: Global, cnf: &Cnf, log: &[Clause]) -> Result<Checker, Memory>
    ensures { IfOk result (λ checker. checker ≡ cnf.now.vars) }
{
    let query = cnf.clauses.as_slice();
    let clauses = query.len().saturating_add(log.len());
    let literals = literals_in(query).saturating_add(literals_in(log));
    Checker::with_room(alloc, cnf.vars, clauses, literals)
}

fn literals_in(clauses: &[Clause]) -> usize {
    let mut count = 0usize;
    for clause in clauses {
        count = count.saturating_add(clause.as_slice().len());
    }
    count
}

/// Whether there is a value for each variable, and a true literal in each clause.
fn is_model(cnf: &Cnf, values: &[bool]) -> bool {
    if values.len() != cnf.vars as usize {
        return false;
    }
    for clause in cnf.clauses.as_slice() {
        if !is_met(values, clause.as_slice()) {
            return false;
        }
    }
    true
}

fn is_met(values: &[bool], literals: &[i32]) -> bool {
    for literal in literals {
        let number = literal.unsigned_abs() as usize;
        if number > 0 && number <= values.len() {
            if values[number - 1] == (*literal > 0) {
                return true;
            }
        }
    }
    false
}
