//! Deciding a formula: by a log that served before, else by a guess that is tested, else by the search of `sat_search`.

ghost use Rattle.std.specs.Prelude.{◌≤◌, ◌<◌, IfOk, IfSome};
ghost use Rattle.sat_proof.specs.Log.{Fit};
ghost use Rattle.sat_query.specs.Decided.{IsDecided};
ghost use Rattle.sat_search.specs.Outcome.{IsOutcome};

use crate::cores::Core;
use crate::logs::{checker_for, fits};
use crate::models::is_model;
use crate::search::Guess;
use crate::solver::Solver;
use base_lists::Memory;
use sat_proof::{Cnf, Log, Model};
use sat_search::{Outcome, solve};
use std::alloc::Global;

/// A guess ends after so many conflicts, or as many as the limit says, if these are fewer.
const MOST_CONFLICTS: u32 = 5_000;

/// A search that makes guesses. It keeps the bits that variables had last: so the next formula is best one over the
/// same variables. And it keeps the last log that refuted a formula, with the clauses that this log needs. Takes some 80
/// bytes for each variable, 64 for each clause and 8 for each literal.
#[derive(Drop)]
pub struct Decider {
    solver: Solver,
    core: Option<Core>,
}

impl Decider {
    /// No formula is known.
    pub fn new(alloc: Global) -> Decider {
        Decider {
            solver: Solver::new(alloc),
            core: None,
        }
    }

    /// A model of a formula, or a log that refutes it, or a fresh log of `limit` clauses. Takes memory as `solve` does,
    /// and what the decider keeps.
    pub fn decide(&mut self, alloc: Global, formula: &Cnf, limit: u32) -> Result<Outcome, Memory>
        requires some { 0 < limit }
        ensures outcome { IfOk result (IsOutcome formula.now.clauses formula.now.vars limit) }
    {
        match self.find(alloc, formula, limit.min(MOST_CONFLICTS))? {
            Some(outcome) => Ok(outcome),
            None => solve(alloc, formula, limit),
        }
    }

    /// The log that is kept, if it refutes this formula too.
    fn serve(&self, alloc: Global, formula: &Cnf) -> Result<Option<Outcome>, Memory>
        ensures { IfOk result (λ found. IfSome found (IsDecided formula.now)) }
    {
        match &self.core {
            Some(core) => core.refute(alloc, formula),
            None => Ok(None),
        }
    }

    /// What the log that is kept gives, or else a guess that stood its test, by a search that ends after a number of
    /// conflicts.
    fn find(
        &mut self,
        alloc: Global,
        formula: &Cnf,
        conflicts: u32,
    ) -> Result<Option<Outcome>, Memory>
        ensures { IfOk result (λ found. IfSome found (IsDecided formula.now)) }
    {
        if let Some(outcome) = self.serve(alloc, formula)? {
            return Ok(Some(outcome));
        }
        match self.solver.guess(alloc, formula, conflicts)? {
            Guess::Model(model) => Ok(tested(formula, model)),
            Guess::Log(log) => self.checked(alloc, formula, log),
            Guess::Nothing => Ok(None),
        }
    }

    /// A log of a formula, if it refutes the clauses that it should need, which are then kept with it.
    fn checked(&mut self, alloc: Global, formula: &Cnf, log: Log) -> Result<Option<Outcome>, Memory>
        ensures { IfOk result (λ found. IfSome found (IsDecided formula.now)) }
    {
        if !fits(&log, formula.vars) {
            return Ok(None);
        }
        let needed = self.solver.needed_clauses(alloc, formula)?;
        let mut checker = checker_for(alloc, &needed, &log)?;
        match checker.check(&needed, log) {
            Ok(proof) => {
                self.core = Some(Core::new(needed, proof.into_log()));
                self.serve(alloc, formula)
            }
            Err(bad) => checked_whole(alloc, formula, bad.log),
        }
    }
}

/// A model of a formula, if it is one.
fn tested(formula: &Cnf, model: Model) -> Option<Outcome>
    ensures { IfSome result (IsDecided formula.now) }
{
    if is_model(formula, &model) {
        Some(Outcome::Model(model))
    } else {
        None
    }
}

/// The same of all clauses of the formula, where the log needs others too.
fn checked_whole(alloc: Global, formula: &Cnf, log: Log) -> Result<Option<Outcome>, Memory>
    requires { Fit formula.now.vars log }
    ensures { IfOk result (λ found. IfSome found (IsDecided formula.now)) }
{
    let mut checker = checker_for(alloc, formula, &log)?;
    match checker.check(formula, log) {
        Ok(proof) => Ok(Some(Outcome::Refuted(proof))),
        Err(_) => Ok(None),
    }
}
