//! The log of a refutation: of the learned clauses those that it needs. And of a formula the clauses that it needs.

ghost use Rattle.std.specs.Prelude.{◌≡◌, ◌≢◌, IfOk, pos};
ghost use Rattle.sat_proof.specs.Assignment.{HasNoZero};
ghost use Rattle.sat_query.specs.Core.{AreAmong};

use crate::copies::copy_of;
use crate::solver::Solver;
use base_lists::{Items, Memory};
use sat_proof::{Clause, Cnf, Log};
use sat_watches::{Literal, narrow, set_item};
use std::alloc::Global;

impl Solver {
    /// The log of what a clause needs that is false. Takes some 24 bytes a clause, 4 a literal, and a byte for each
    /// clause that was learned.
    pub(crate) fn log_of_conflict(&mut self, alloc: Global, conflict: u32) -> Result<Log, Memory> {
        self.seen.forget();
        let mut marks = vec![in alloc; false; self.origins.len()]?;
        self.need(&mut marks, conflict)?;
        self.log(alloc, marks)
    }

    /// That of what it needs that a literal is false.
    pub(crate) fn log_of_denied(&mut self, alloc: Global, literal: Literal) -> Result<Log, Memory> {
        self.seen.forget();
        let marks = vec![in alloc; false; self.origins.len()]?;
        self.seen.meet(literal.variable())?;
        self.log(alloc, marks)
    }

    /// The log of clauses that are marked, and of those that these, and the literals that were met, came from.
    fn log(&mut self, alloc: Global, mut marks: Vec<bool>) -> Result<Log, Memory> {
        'places: for place in (0..self.trail.len()).rev() {
            let literal = self.trail.literal(place);
            if self.seen.is_met(literal.variable()) || self.trail.level_of(literal) == 0 {
                if let Some(reason) = self.trail.reason_of(literal) {
                    self.need(&mut marks, reason)?;
                }
            }
        }
        'clauses: for learned in (0..marks.len()).rev() {
            if marks[learned] {
                self.origins.mark(learned, &mut marks);
                self.meet_denied(learned)?;
            }
        }
        self.marked(alloc, &marks)
    }

    /// The literals of a learned clause that unit clauses make false are met: the log leaves them out.
    fn meet_denied(&mut self, learned: usize) -> Result<(), Memory> {
        let clause = self.given.saturating_add(narrow(learned));
        'literals: for k in 0..self.clauses.count(clause) {
            let literal = self.clauses.literal(clause, k);
            if self.is_denied(literal) && !self.seen.is_met(literal.variable()) {
                self.seen.meet(literal.variable())?;
            }
        }
        Ok(())
    }

    /// Of a formula's clauses those that the log of its refutation should need, if it was made just before: all but the
    /// unit clauses that it didn't meet. Takes their memory.
    pub(crate) fn needed_clauses(&self, alloc: Global, formula: &Cnf) -> Result<Cnf, Memory>
        ensures vars { IfOk result (λ needed. needed.vars ≡ formula.now.vars) }
        ensures among { IfOk result (λ needed. AreAmong needed.clauses formula.now.clauses) }
    {
        let clauses = formula.clauses.as_slice();
        let mut needed = Vec::with_capacity(alloc, clauses.len())?;
        'clauses: for place in 0..clauses.len() {
            if place + 1 == clauses.len() || self.may_need(clauses[place].as_slice()) {
                needed.push(copy_of(alloc, &clauses[place])?)?;
            }
        }
        Ok(Cnf {
            vars: formula.vars,
            clauses: Items::from_vec(needed),
        })
    }

    /// Whether the last log may need a clause: any but a unit clause whose variable it didn't meet.
    fn may_need(&self, literals: &[i32]) -> bool {
        match literals {
            [literal] => self.seen.is_met(Literal::of(*literal).variable()),
            _ => true,
        }
    }

    /// A clause is needed: it is marked if it is learned, and its literals are met.
    fn need(&mut self, marks: &mut [bool], clause: u32) -> Result<(), Memory> {
        if clause >= self.given {
            set_item(marks, (clause - self.given) as usize, true);
        }
        'literals: for k in 0..self.clauses.count(clause) {
            let literal = self.clauses.literal(clause, k);
            if !self.seen.is_met(literal.variable()) {
                self.seen.meet(literal.variable())?;
            }
        }
        Ok(())
    }

    /// The log of the learned clauses that are marked, and of the empty one after them.
    fn marked(&self, alloc: Global, marks: &[bool]) -> Result<Log, Memory> {
        let mut log = Vec::new(alloc);
        'clauses: for clause in self.given..self.clauses.len() {
            let place = (clause - self.given) as usize;
            if place < marks.len() && marks[place] {
                log.push(Clause::from_vec(self.literals_of(alloc, clause)?))?;
            }
        }
        log.push(Clause::from_vec(Vec::new(alloc)))?;
        Ok(Log::from_vec(log))
    }

    /// The literals of a clause, but for those that unit clauses make false.
    fn literals_of(&self, alloc: Global, clause: u32) -> Result<Vec<i32>, Memory>
        ensures { IfOk result (λ literals. HasNoZero literals.items) }
    {
        let mut literals = Vec::with_capacity(alloc, self.clauses.count(clause))?;
        'literals: for k in 0..self.clauses.count(clause) {
            let literal = self.clauses.literal(clause, k);
            if !self.is_denied(literal) {
                literals.push(literal.number())?;
            }
        }
        Ok(literals)
    }

    /// Whether a unit clause makes a literal false: all decisions are of such clauses, so it is false without a reason.
    fn is_denied(&self, literal: Literal) -> bool {
        self.trail.is_false(literal) && self.trail.reason_of(literal).is_none()
    }
}
