//! Premises, formulas and logs.

ghost use Rattle.std.specs.Prelude.{◌≡◌, ◌≤◌};
ghost use Rattle.std.specs.List.{All};
ghost use Rattle.sat_proof.specs.Assignment.{HasNoZero};
ghost use Rattle.sat_proof.specs.Log.{Fit};

use base_lists::Items;
use std::marker::Model;

/// Literals in order. Literal n is that variable n is true, -n that it is false; variables count from 1. A clause is
/// true where one of its literals is.
#[derive(Debug, Drop)]
pub struct Clause {
    literals: Vec<i32>,
}

impl Model for Clause {
    ghost use Rattle.std.specs.Prelude.{List, ℤ};
    ghost use Rattle.sat_proof.specs.Assignment.{HasNoZero};

    ghost Value = { List ℤ };

    ghost view = { λ clause. clause.literals.items };

    ghost invariant = { λ clause. HasNoZero clause.literals.items };
}

impl Clause {
    /// The clause of these literals.
    pub fn from_vec(literals: Vec<i32>) -> Clause
        requires { HasNoZero literals.items }
        ensures { result ≡ literals.items }
    {
        Clause { literals }
    }

    /// The literals as a slice.
    pub fn as_slice(&self) -> &[i32]
        ensures value { result.now ≡ self.now }
        ensures no_zero { HasNoZero result.now }
    {
        self.literals.as_slice()
    }

    /// The vector of the literals.
    pub fn into_vec(self) -> Vec<i32>
        ensures value { result.items ≡ self }
        ensures no_zero { HasNoZero result.items }
    {
        let Clause { literals } = self;
        literals
    }
}

/// A formula: a number of variables, and clauses over them. It is true where each clause is.
#[derive(Debug, Drop)]
pub struct Cnf {
    pub vars: u32,
    pub clauses: Items<Clause>,

    pub ghost few: { vars ≤ 2147483647 },
    pub ghost fit: { Fit vars clauses },
}

/// Premises in order, each of which is to follow from a formula's clauses and the earlier ones. None has the literal 0.
#[derive(Debug, Drop)]
pub struct Log {
    clauses: Vec<Clause>,
}

impl Model for Log {
    ghost use Rattle.std.specs.Prelude.{List, ℤ};
    ghost use Rattle.std.specs.List.{All};
    ghost use Rattle.sat_proof.specs.Assignment.{HasNoZero};

    ghost Value = { List (List ℤ) };

    ghost view = { λ log. log.clauses.items };

    ghost invariant = { λ log. All HasNoZero log.clauses.items };
}

impl Log {
    /// The log of these clauses.
    pub fn from_vec(clauses: Vec<Clause>) -> Log
        requires { All HasNoZero clauses.items }
        ensures { result ≡ clauses.items }
    {
        Log { clauses }
    }

    /// The clauses as a slice.
    pub fn as_slice(&self) -> &[Clause]
        ensures value { result.now ≡ self.now }
        ensures no_zero { All HasNoZero result.now }
    {
        self.clauses.as_slice()
    }

    /// The vector of the clauses.
    pub fn into_vec(self) -> Vec<Clause>
        ensures value { result.items ≡ self }
        ensures no_zero { All HasNoZero result.items }
    {
        let Log { clauses } = self;
        clauses
    }

    /// No clause of a log has the literal 0. Does nothing.
    pub fn no_zero(&self)
        ensures { All HasNoZero self.now }
    {
        let _ = &self.clauses;
    }
}
