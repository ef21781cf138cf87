//! What a checked log is worth: tokens that must be spent, and the answer where it breaks the rules.

ghost use Rattle.std.specs.Prelude.{◌≡◌, length};
ghost use Rattle.std.specs.List.{All};
ghost use Rattle.sat_proof.specs.Assignment.{HasNoZero};
ghost use Rattle.sat_proof.specs.Log.{Refutes, AreFresh};

use crate::clause::{Cnf, Log};
use std::marker::Model;

/// A log that refutes a formula. It can't be copied, and must be spent.
#[must_use]
#[derive(Debug)]
pub struct Refuted {
    log: Log,
}

impl Model for Refuted {
    ghost use Rattle.std.specs.Prelude.{List, ℤ};
    ghost use Rattle.std.specs.List.{All};
    ghost use Rattle.sat_proof.specs.Assignment.{HasNoZero};

    ghost Value = { List (List ℤ) };

    ghost view = { λ token. token.log };

    ghost invariant = { λ token. All HasNoZero token.log };
}

impl Refuted {
    /// The token of a log that refutes the formula.
    pub fn from_log(cnf: &Cnf, log: Log) -> Refuted
        requires refutes { Refutes cnf.now.clauses log }
        ensures log { result ≡ log }
        ensures refutes { Refutes cnf.now.clauses result }
    {
        log.no_zero();
        Refuted { log }
    }

    /// Its log.
    pub fn into_log(self) -> Log
        ensures value { result ≡ self }
        ensures no_zero { All HasNoZero result }
    {
        let Refuted { log } = self;
        log
    }
}

/// A fresh log of as many clauses as a limit says. It can't be copied, and must be spent.
#[must_use]
#[derive(Debug)]
pub struct Exhausted {
    log: Log,
}

impl Model for Exhausted {
    ghost use Rattle.std.specs.Prelude.{List, ℤ};
    ghost use Rattle.std.specs.List.{All};
    ghost use Rattle.sat_proof.specs.Assignment.{HasNoZero};

    ghost Value = { List (List ℤ) };

    ghost view = { λ token. token.log };

    ghost invariant = { λ token. All HasNoZero token.log };
}

impl Exhausted {
    /// The token of a log that is fresh for the formula and has `limit` clauses.
    pub fn from_log(cnf: &Cnf, log: Log, limit: u32) -> Exhausted
        requires fresh { AreFresh cnf.now.clauses log }
        requires count { length log ≡ limit }
        ensures log { result ≡ log }
        ensures fresh { AreFresh cnf.now.clauses result }
        ensures count { length result ≡ limit }
    {
        log.no_zero();
        Exhausted { log }
    }

    /// Its log.
    pub fn into_log(self) -> Log
        ensures value { result ≡ self }
        ensures no_zero { All HasNoZero result }
    {
        let Exhausted { log } = self;
        log
    }
}

/// A log that breaks the rules, unchanged, and the first line at which it does, from 1. That is the line after the
/// last where only the end or the number of clauses is wrong.
#[derive(Debug, Drop)]
pub struct Bad {
    pub log: Log,
    pub line: usize,
}
