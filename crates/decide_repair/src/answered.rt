//! A query that was answered, and the answer, which can be given again.

ghost use Rattle.std.specs.Bool.{Decides};
ghost use Rattle.std.specs.Prelude.{◌≡◌, ◌≤◌, IfOk, IfSome};
ghost use Rattle.decide_repair.specs.Answered.{IsAgain, IsAnswer, answer_of, asked};
ghost use Rattle.sat_search.specs.Outcome.{IsOutcome};

use crate::copies::copied;
use base_lists::Memory;
use sat_proof::{Clause, Cnf, Exhausted, Log, Model, Refuted};
use sat_search::Outcome;
use std::alloc::Global;
use std::marker;

/// What a search answered: a model, a log that refutes, or a fresh log as long as the limit.
#[derive(Drop)]
pub enum Answer {
    Model(Model),
    Refuted(Log),
    Limit(Log),
}

/// A query, and what a search with a limit answered.
#[derive(Drop)]
pub struct Answered {
    query: Cnf,
    limit: u32,
    answer: Answer,
}

impl marker::Model for Answered {
    ghost use Rattle.decide_repair.specs.Answered.{AnsweredView, IsAnswer};

    ghost Value = { AnsweredView };

    ghost view = { λ a. record { query = a.query; limit = a.limit; answer = a.answer } };

    ghost invariant = { λ a. IsAnswer a.query a.limit a.answer };
}

impl Answered {
    /// A query with its answer.
    pub fn new(query: Cnf, limit: u32, answer: Answer) -> Answered
        requires { IsAnswer query limit answer }
        ensures { result ≡ asked query limit answer }
    {
        Answered {
            query,
            limit,
            answer,
        }
    }

    /// The answer once more, where a query equals this one. Takes its memory.
    pub fn again(&self, alloc: Global, query: &Cnf, limit: u32) -> Result<Option<Outcome>, Memory>
        ensures again { IfOk result (IsAgain self.now query.now limit) }
        ensures outcome { IfOk result (λ found. IfSome found (IsOutcome query.now.clauses query.now.vars limit)) }
    {
        if limit != self.limit || !same_query(query, &self.query) {
            return Ok(None);
        }
        let outcome = outcome_of(alloc, &self.answer, query, limit)?;
        Ok(Some(outcome))
    }
}

/// An answer to a query as an outcome. Takes its memory.
fn outcome_of(alloc: Global, answer: &Answer, query: &Cnf, limit: u32) -> Result<Outcome, Memory>
    requires { IsAnswer query.now limit answer.now }
    ensures outcome { IfOk result (IsOutcome query.now.clauses query.now.vars limit) }
    ensures answer { IfOk result (λ outcome. answer_of outcome ≡ answer.now) }
{
    match answer {
        Answer::Model(model) => {
            let values = model.as_slice().to_vec(alloc)?;
            Ok(Outcome::Model(Model::from_vec(values)))
        }
        Answer::Refuted(log) => {
            let log = Log::from_vec(copied(alloc, log.as_slice())?);
            Ok(Outcome::Refuted(Refuted::from_log(query, log)))
        }
        Answer::Limit(log) => {
            let log = Log::from_vec(copied(alloc, log.as_slice())?);
            Ok(Outcome::Limit(Exhausted::from_log(query, log, limit)))
        }
    }
}

fn same_query(first: &Cnf, second: &Cnf) -> bool
    ensures { Decides result (first.now ≡ second.now) }
{
    first.vars == second.vars && same_clauses(first.clauses.as_slice(), second.clauses.as_slice())
}

fn same_clauses(first: &[Clause], second: &[Clause]) -> bool
    ensures { Decides result (first.now ≡ second.now) }
{
    if first.len() != second.len() {
        return false;
    }
    'clauses: for place in 0..first.len() {
        if !same_literals(first[place].as_slice(), second[place].as_slice()) {
            return false;
        }
    }
    true
}

fn same_literals(first: &[i32], second: &[i32]) -> bool
    ensures { Decides result (first.now ≡ second.now) }
{
    first == second
}
