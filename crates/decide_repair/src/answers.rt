//! The searches of a walk: a query equal to one that was answered before has its answer again, and no new search.

ghost use Rattle.std.specs.Prelude.{◌≡◌, ◌≤◌, ◌<◌, IfOk, IfSome, OnOk};
ghost use Rattle.decide_repair.specs.Answered.{IsAnswer, answer_of};
ghost use Rattle.decide_repair.specs.Kept.{Asks, IsEmpty, IsRecalled, PutsIfRoom, answer_bytes, code_of};
ghost use Rattle.sat_search.specs.Outcome.{IsOutcome};

use crate::answered::{Answer, Answered};
use crate::copies::{bytes_of, code_of, copied};
use base_lists::{Items, Memory};
use sat_proof::{Cnf, Exhausted, Log, Model, Refuted};
use sat_search::{Outcome, solve};
use std::alloc::Global;
use std::collections::HashMap;
use std::marker;

/// How many bytes the kept queries and their answers have at most together.
const MOST_BYTES: usize = 67_108_864;

/// Queries that were answered, and their answers, by the codes of the queries. If two queries have the same code, the
/// later one is kept. Stops keeping at about 64 megabytes.
#[derive(Drop)]
pub struct Answers {
    answered: HashMap<u64, Answered>,
    bytes: usize,
}

impl marker::Model for Answers {
    ghost use Rattle.std.specs.Prelude.{◌≤◌, ◌^◌};
    ghost use Rattle.decide_repair.specs.Kept.{KeptView};

    ghost Value = { KeptView };

    ghost view = { λ answers. record { entries = answers.answered.entries; bytes = answers.bytes } };

    ghost invariant = { λ answers. answers.bytes ≤ 2 ^ 26 };
}

impl Answers {
    /// No queries.
    pub fn new(alloc: Global) -> Answers
        ensures { IsEmpty result }
    {
        Answers {
            answered: HashMap::new(alloc),
            bytes: 0,
        }
    }

    /// What a search on a query answers. Takes the memory of a search, and that of the query and of the answer again.
    pub fn ask(&mut self, alloc: Global, query: &Cnf, limit: u32) -> Result<Outcome, Memory>
        requires some { 0 < limit }
        ensures outcome { IfOk result (IsOutcome query.now.clauses query.now.vars limit) }
        ensures asks { IfOk result (λ outcome. Asks self.old query.now limit (answer_of outcome) self.new) }
    {
        let code = code_of(query.clauses.as_slice());
        match self.recall(alloc, code, query, limit)? {
            Some(outcome) => Ok(outcome),
            None => {
                let outcome = solve(alloc, query, limit)?;
                self.keep(alloc, code, query, limit, outcome)
            }
        }
    }

    /// The answer that is kept of a query, if one is.
    fn recall(
        &self,
        alloc: Global,
        code: u64,
        query: &Cnf,
        limit: u32,
    ) -> Result<Option<Outcome>, Memory>
        requires code { code ≡ code_of query.now.clauses }
        ensures outcome { IfOk result (λ found. IfSome found (IsOutcome query.now.clauses query.now.vars limit)) }
        ensures recalled { IfOk result (IsRecalled self.now query.now limit) }
    {
        match self.answered.get(&code) {
            Some(answered) => answered.again(alloc, query, limit),
            None => Ok(None),
        }
    }

    /// Keeps an answer, and gives it back.
    fn keep(
        &mut self,
        alloc: Global,
        code: u64,
        query: &Cnf,
        limit: u32,
        outcome: Outcome,
    ) -> Result<Outcome, Memory>
        requires code { code ≡ code_of query.now.clauses }
        requires outcome { IsOutcome query.now.clauses query.now.vars limit outcome }
        ensures outcome { IfOk result (IsOutcome query.now.clauses query.now.vars limit) }
        ensures same { IfOk result (λ given. answer_of given ≡ answer_of outcome) }
        ensures puts { OnOk result (PutsIfRoom self.old query.now limit (answer_of outcome) self.new) }
    {
        match outcome {
            Outcome::Model(model) => {
                let values = model.as_slice().to_vec(alloc)?;
                self.put(
                    alloc,
                    code,
                    query,
                    limit,
                    Answer::Model(Model::from_vec(values)),
                )?;
                Ok(Outcome::Model(model))
            }
            Outcome::Refuted(proof) => {
                let log = proof.into_log();
                let copy = Log::from_vec(copied(alloc, log.as_slice())?);
                self.put(alloc, code, query, limit, Answer::Refuted(copy))?;
                Ok(Outcome::Refuted(Refuted::from_log(query, log)))
            }
            Outcome::Limit(proof) => {
                let log = proof.into_log();
                let copy = Log::from_vec(copied(alloc, log.as_slice())?);
                self.put(alloc, code, query, limit, Answer::Limit(copy))?;
                Ok(Outcome::Limit(Exhausted::from_log(query, log, limit)))
            }
        }
    }

    /// Puts an answer to those that are kept, if there is room.
    fn put(
        &mut self,
        alloc: Global,
        code: u64,
        query: &Cnf,
        limit: u32,
        answer: Answer,
    ) -> Result<(), Memory>
        requires code { code ≡ code_of query.now.clauses }
        requires answer { IsAnswer query.now limit answer }
        ensures { OnOk result (PutsIfRoom self.old query.now limit answer self.new) }
    {
        let bytes = bytes_of(query.clauses.as_slice()).saturating_add(size_of(&answer));
        if bytes > MOST_BYTES - self.bytes {
            return Ok(());
        }
        let query = copied_query(alloc, query)?;
        self.answered
            .insert(code, Answered::new(query, limit, answer))?;
        self.bytes += bytes;
        Ok(())
    }
}

/// A query once more. Takes its memory.
fn copied_query(alloc: Global, query: &Cnf) -> Result<Cnf, Memory>
    ensures { IfOk result (λ copy. copy ≡ query.now) }
{
    let clauses = copied(alloc, query.clauses.as_slice())?;
    Ok(Cnf {
        vars: query.vars,
        clauses: Items::from_vec(clauses),
    })
}

/// How many bytes an answer takes, about.
fn size_of(answer: &Answer) -> usize
    ensures { result ≡ answer_bytes answer.now }
{
    match answer {
        Answer::Model(model) => model.as_slice().len(),
        Answer::Refuted(log) => bytes_of(log.as_slice()),
        Answer::Limit(log) => bytes_of(log.as_slice()),
    }
}
