//! Logs, checked in checkers with different room: each must give the same answer, and the log back.

ghost use Rattle.std.specs.Prelude.{◌≡◌, IfOk};

use crate::answer::Answer;
use crate::dimacs::log_of;
use base_lists::Memory;
use sat_proof::{Checker, Cnf, Log};
use std::alloc::Global;

/// Room for clauses that are watched and literals that are listed; none is a checker without.
pub(crate) const ROOMS: [Option<(usize, usize)>; 5] = [
    None,
    Some((0, 0)),
    Some((9, 9)),
    Some((1000, 0)),
    Some((1000, 1000)),
];

fn checker_of(alloc: Global, formula: &Cnf, room: Option<(usize, usize)>) -> Result<Checker, Memory>
    ensures { IfOk result (λ checker. checker ≡ formula.now.vars) }
{
    match room {
        Some((clauses, literals)) => { Checker::with_room(alloc, formula.vars, clauses, literals) }
        None => Checker::new(alloc, formula.vars),
    }
}

/// Whether the log of these numbers refutes the formula, or its first line that breaks the rules.
pub(crate) fn refuting(
    alloc: Global,
    room: Option<(usize, usize)>,
    formula: &Cnf,
    numbers: &[i32],
) -> Result<Answer, Memory> {
    let Some(log) = log_of(alloc, numbers, formula.vars)? else {
        return Ok(Answer::Unread);
    };
    let mut checker = checker_of(alloc, formula, room)?;
    Ok(match checker.check(formula, log) {
        Ok(token) => back(token.into_log(), numbers, Answer::Refuted),
        Err(bad) => back(bad.log, numbers, Answer::Line(bad.line)),
    })
}

/// Whether the log of these numbers is fresh and has `limit` clauses, or its first line that breaks the rules.
pub(crate) fn fresh(
    alloc: Global,
    room: Option<(usize, usize)>,
    formula: &Cnf,
    numbers: &[i32],
    limit: u32,
) -> Result<Answer, Memory> {
    let Some(log) = log_of(alloc, numbers, formula.vars)? else {
        return Ok(Answer::Unread);
    };
    let mut checker = checker_of(alloc, formula, room)?;
    Ok(match checker.check_fresh(formula, log, limit) {
        Ok(token) => back(token.into_log(), numbers, Answer::Fresh),
        Err(bad) => back(bad.log, numbers, Answer::Line(bad.line)),
    })
}

/// The answer, where the log has these numbers.
fn back(log: Log, numbers: &[i32], answer: Answer) -> Answer {
    if is_log(log, numbers) {
        answer
    } else {
        Answer::OtherLog
    }
}

fn is_log(log: Log, numbers: &[i32]) -> bool {
    let mut rest = numbers.iter();
    for clause in log.into_vec() {
        for literal in clause.into_vec() {
            if rest.next() != Some(&literal) {
                return false;
            }
        }
        if rest.next() != Some(&0) {
            return false;
        }
    }
    rest.next() == None
}
