//! The checker: the memory for checking logs.

ghost use Rattle.std.specs.Prelude.{◌≡◌, ◌↔◌, ◌≤◌, length, IfOk, IfErr, IsOk};
ghost use Rattle.sat_proof.specs.Assignment.{HasNoModel};
ghost use Rattle.sat_proof.specs.Log.{Refutes, AreFresh, IsBadLine, IsStaleLine, Fit};

use crate::clause::{Cnf, Log};
use crate::earlier_clauses::EarlierClauses;
use crate::propagator::Propagator;
use crate::token::{Bad, Exhausted, Refuted};
use base_lists::Memory;
use std::alloc::Global;
use std::marker::Model;

/// The memory for checking logs over a given number of variables. Contracts see that number.
#[derive(Drop)]
pub struct Checker {
    vars: u32,
    propagator: Propagator,
    earlier: EarlierClauses,
}

impl Model for Checker {
    ghost use Rattle.std.specs.Prelude.{◌≤◌, ◌+◌, ◌*◌, ℕ};
    ghost use Rattle.sat_proof.specs.Lines.{HaveVars};

    ghost Value = { ℕ };

    ghost view = { λ checker. checker.vars };

    ghost invariant = { λ checker.
        (checker.vars ≤ 2147483647) × HaveVars checker.vars checker.propagator checker.earlier };
}

impl Checker {
    /// A checker for variables 1 to `vars`, with no watches and no index: it looks through all clauses again at each
    /// step. Takes 100 bytes for each variable.
    pub fn new(alloc: Global, vars: u32) -> Result<Checker, Memory>
        requires { vars ≤ 2147483647 }
        ensures { IfOk result (λ checker. checker ≡ vars) }
    {
        Checker::with_room(alloc, vars, 0, 0)
    }

    /// A checker for variables 1 to `vars`, with room for watches of `clauses` clauses and, for `check_fresh`, an
    /// index of `literals` literals, those of a formula and a log together. Where they have more it goes on without.
    /// Takes 100 bytes for each variable, 24 for each clause and 16 for each literal.
    pub fn with_room(
        alloc: Global,
        vars: u32,
        clauses: usize,
        literals: usize,
    ) -> Result<Checker, Memory>
        requires { vars ≤ 2147483647 }
        ensures { IfOk result (λ checker. checker ≡ vars) }
    {
        let codes = 2 * (vars as usize) + 2;
        let propagator = Propagator::new(alloc, codes, clauses)?;
        let earlier = EarlierClauses::new(alloc, codes, literals)?;
        Ok(Checker {
            vars,
            propagator,
            earlier,
        })
    }

    /// Whether the log refutes the formula: each clause follows from the formula's and the earlier ones, and the last
    /// is empty. The checker can be used again.
    pub fn check(&mut self, cnf: &Cnf, log: Log) -> Result<Refuted, Bad>
        requires query { Fit self.old cnf.now.clauses }
        requires log { Fit self.old log }
        ensures refutes { IfOk result (λ token. Refutes cnf.now.clauses token) }
        ensures no_model { IfOk result (λ _. HasNoModel cnf.now.vars cnf.now.clauses) }
        ensures exact { IsOk result ↔ Refutes cnf.now.clauses log }

        // the log comes back
        ensures log { IfOk result (λ token. token ≡ log) }
        ensures bad_log { IfErr result (λ bad. bad.log ≡ log) }
        ensures line { IfErr result (λ bad. IsBadLine cnf.now.clauses log bad.line) }
        ensures kept { self.new ≡ self.old }
    {
        self.propagator.clear();
        if let Some(line) = self
            .propagator
            .bad_line(cnf.clauses.as_slice(), log.as_slice())
        {
            return Err(Bad { log, line });
        }
        Ok(Refuted::from_log(cnf, log))
    }

    /// Whether the log is fresh and has exactly `limit` clauses. The checker can be used again.
    pub fn check_fresh(&mut self, cnf: &Cnf, log: Log, limit: u32) -> Result<Exhausted, Bad>
        requires query { Fit self.old cnf.now.clauses }
        requires log { Fit self.old log }
        ensures fresh { IfOk result (λ token. AreFresh cnf.now.clauses token) }
        ensures count { IfOk result (λ token. length token ≡ limit) }
        ensures exact { IsOk result ↔ (AreFresh cnf.now.clauses log × (length log ≡ limit)) }

        // the log comes back
        ensures log { IfOk result (λ token. token ≡ log) }
        ensures bad_log { IfErr result (λ bad. bad.log ≡ log) }
        ensures line { IfErr result (λ bad. IsStaleLine cnf.now.clauses log limit bad.line) }
        ensures kept { self.new ≡ self.old }
    {
        self.propagator.clear();
        self.earlier.clear();
        if let Some(line) = self.propagator.stale_line(
            &mut self.earlier,
            cnf.clauses.as_slice(),
            log.as_slice(),
            limit,
        ) {
            return Err(Bad { log, line });
        }
        Ok(Exhausted::from_log(cnf, log, limit))
    }
}
