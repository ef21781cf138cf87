//! Clauses as they are read, number by number.

ghost use Rattle.std.specs.Prelude.{◌≡◌, ◌≤◌, Ok, false};
ghost use Rattle.sat_dimacs.specs.Machine as spec;
ghost use Rattle.sat_dimacs.specs.Reading.{ReadsDimacs};

use crate::fault::DimacsFault;
use crate::numbers::literal_of;
use crate::refusal::DimacsErr;
use base_lists::Items;
use sat_proof::Clause;
use std::alloc::Global;
use std::marker::Model;

/// The clauses that were read, and the literals of an open one. `count` is how many clauses there are to be.
#[derive(Drop)]
pub struct Progress {
    vars: u32,
    count: Option<u64>,
    clauses: Vec<Clause>,
    literals: Vec<i32>,
}

impl Model for Progress {
    ghost use Rattle.std.specs.Prelude.{◌≤◌};
    ghost use Rattle.std.specs.List.{All};
    ghost use Rattle.sat_proof.specs.Assignment.{HasNoZero};
    ghost use Rattle.sat_dimacs.specs.Machine.{State};

    ghost Value = { State };

    ghost view = { λ p.
        record { vars = p.vars; count = p.count; clauses = p.clauses.items; literals = p.literals.items } };

    ghost invariant = { λ p. (p.vars ≤ 2147483647) × HasNoZero p.literals.items × All HasNoZero p.clauses.items };
}

impl Progress {
    /// Nothing was read.
    pub fn new(alloc: Global, vars: u32, count: Option<u64>) -> Progress
        requires { vars ≤ 2147483647 }
        ensures { result ≡ spec.start vars count }
    {
        Progress {
            vars,
            count,
            clauses: Vec::new(alloc),
            literals: Vec::new(alloc),
        }
    }

    /// One word more, on this line.
    pub fn step(self, alloc: Global, line: usize, word: &[u8]) -> Result<Progress, DimacsErr>
        ensures { ReadsDimacs (spec.step self line word.now) result }
    {
        let literal = literal_of(self.vars, line, word)?;
        if self.is_full() {
            return Err(DimacsErr::Refused(DimacsFault::Count { line }));
        }
        self.taken(alloc, literal)
    }

    /// Whether the next number begins a clause too many.
    fn is_full(&self) -> bool
        ensures { result ≡ spec.is_full self.now }
    {
        self.literals.is_empty() && are_all(self.count, self.clauses.len() as u64)
    }

    /// With one literal more, or with the clause that 0 ends.
    fn taken(self, alloc: Global, literal: i32) -> Result<Progress, DimacsErr>
        ensures { ReadsDimacs (Ok (spec.taken self literal)) result }
    {
        if is_end(literal) {
            self.ended(alloc)
        } else {
            self.longer(literal)
        }
    }

    fn ended(self, alloc: Global) -> Result<Progress, DimacsErr>
        ensures { ReadsDimacs (Ok (spec.ended self)) result }
    {
        let Progress {
            vars,
            count,
            mut clauses,
            literals,
        } = self;
        clauses.push(Clause::from_vec(literals))?;
        Ok(Progress {
            vars,
            count,
            clauses,
            literals: Vec::new(alloc),
        })
    }

    fn longer(self, literal: i32) -> Result<Progress, DimacsErr>
        requires { spec.is_end literal ≡ false }
        ensures { ReadsDimacs (Ok (spec.longer self literal)) result }
    {
        let Progress {
            vars,
            count,
            clauses,
            mut literals,
        } = self;
        literals.push(literal)?;
        Ok(Progress {
            vars,
            count,
            clauses,
            literals,
        })
    }

    /// The clauses, where the text ends here and `after` is the number of the line after its last.
    pub fn finish(self, after: usize) -> Result<Items<Clause>, DimacsErr>
        ensures { ReadsDimacs (spec.finish after self) result }
    {
        if !self.literals.is_empty() {
            return Err(DimacsErr::Refused(DimacsFault::Syntax { line: after }));
        }
        if are_short(self.count, self.clauses.len() as u64) {
            return Err(DimacsErr::Refused(DimacsFault::Count { line: after }));
        }
        let Progress { clauses, .. } = self;
        Ok(Items::from_vec(clauses))
    }
}

fn is_end(literal: i32) -> bool
    ensures { result ≡ spec.is_end literal }
{
    literal == 0
}

fn are_all(count: Option<u64>, clauses: u64) -> bool
    ensures { result ≡ spec.are_all count clauses }
{
    match count {
        None => false,
        Some(n) => n <= clauses,
    }
}

fn are_short(count: Option<u64>, clauses: u64) -> bool
    ensures { result ≡ spec.are_short count clauses }
{
    match count {
        None => false,
        Some(n) => clauses < n,
    }
}
