//! What a search knows: clauses, the bits that variables have, and those that they had last.

use crate::clauses::Clauses;
use crate::origins::Origins;
use crate::scores::Scores;
use crate::trail::Trail;
use base_lists::Memory;
use sat_proof::{Clause, Cnf};
use sat_watches::{Literal, Seen, Variable, Watches, item_at, narrow, set_item};
use std::alloc::Global;

/// So many clauses are learned, at most, before all are forgotten with the next formula.
const MOST_LEARNED: usize = 65_536;

/// The state of a search. The first clauses are the formula's, of two literals or more; the others are learned from
/// these and from the literal of the formula's last clause. The first decisions are the other unit clauses.
#[derive(Drop)]
pub(crate) struct Solver {
    pub(crate) clauses: Clauses,
    pub(crate) given: u32,
    pub(crate) origins: Origins,
    pub(crate) watches: Watches,
    pub(crate) trail: Trail,
    pub(crate) units: Vec<Literal>,
    pub(crate) scores: Scores,
    pub(crate) seen: Seen,
    phases: Vec<bool>,
    /// A clause that is false without a decision.
    pub(crate) broken: Option<u32>,
}

/// How the next decision ends: it is taken, or no variable is left, or a unit clause is false.
#[derive(Clone, Copy, Debug)]
pub(crate) enum Decision {
    Taken,
    Complete,
    Denied(Literal),
}

impl Solver {
    /// No formula.
    pub(crate) fn new(alloc: Global) -> Solver {
        Solver {
            clauses: Clauses::new(alloc),
            given: 0,
            origins: Origins::new(alloc),
            watches: Watches::new(alloc),
            trail: Trail::new(alloc),
            units: Vec::new(alloc),
            scores: Scores::new(alloc),
            seen: Seen::new(alloc),
            phases: Vec::new(alloc),
            broken: None,
        }
    }

    /// Begins with a formula. Where it has as many variables as the one before, as many clauses of two literals or
    /// more, and the same last one, then it is taken for the same but for its other unit clauses, and what was learned
    /// stays.
    pub(crate) fn start(&mut self, formula: &Cnf) -> Result<(), Memory> {
        let clauses = formula.clauses.as_slice();
        let last = last_of(clauses);
        let count = self.read_units(clauses)?;
        let is_same = self.trail.vars() == formula.vars as usize
            && self.given == count
            && self.trail.is_true(last)
            && self.trail.level_of(last) == 0
            && self.origins.len() < MOST_LEARNED;
        if is_same {
            self.go_back(0)
        } else {
            self.load(clauses, formula.vars, last)
        }
    }

    /// Reads the unit clauses before the last clause; how many clauses have more literals.
    fn read_units(&mut self, clauses: &[Clause]) -> Result<u32, Memory> {
        self.units.clear();
        let mut count: usize = 0;
        'clauses: for place in 0..clauses.len() {
            let literals = clauses[place].as_slice();
            if literals.len() > 1 {
                count = count.saturating_add(1);
            } else if literals.len() == 1 && place + 1 < clauses.len() {
                self.units.push(Literal::of(literals[0]))?;
            }
        }
        Ok(narrow(count))
    }

    /// Forgets all but the bits that variables had last, and takes clauses in.
    fn load(&mut self, clauses: &[Clause], vars: u32, last: Literal) -> Result<(), Memory> {
        let count = vars as usize;
        self.clauses.clear();
        self.origins.clear();
        self.watches.start(count)?;
        self.trail.start(count)?;
        self.scores.start(vars)?;
        self.seen.start(count)?;
        self.phases.resize(count, false)?;
        self.broken = None;
        'clauses: for place in 0..clauses.len() {
            let literals = clauses[place].as_slice();
            if literals.len() > 1 {
                let clause = self.clauses.add(literals)?;
                self.watch(clause)?;
            }
        }
        self.given = self.clauses.len();
        self.trail.assign(last, None)?;
        Ok(())
    }

    /// The clause that came last gets its watches.
    pub(crate) fn watch(&mut self, clause: u32) -> Result<(), Memory> {
        self.watches.add_clause()?;
        if self.clauses.count(clause) > 1 {
            let first = self.clauses.literal(clause, 0);
            let second = self.clauses.literal(clause, 1);
            self.watches.note_clause(clause, first, second);
        }
        Ok(())
    }

    /// Takes the next decision, at a new level.
    pub(crate) fn decide(&mut self) -> Result<Decision, Memory> {
        'units: for k in (self.trail.level() as usize)..self.units.len() {
            let literal = self.units[k];
            if self.trail.is_false(literal) {
                return Ok(Decision::Denied(literal));
            }
            self.trail.open_level()?;
            if !self.trail.is_true(literal) {
                self.trail.assign(literal, None)?;
                return Ok(Decision::Taken);
            }
        }
        self.decide_open()
    }

    /// Takes the next one for a variable without a bit, the one that it had last.
    fn decide_open(&mut self) -> Result<Decision, Memory> {
        'variables: for _ in 0..u64::MAX {
            let Some(variable) = self.scores.pop() else {
                return Ok(Decision::Complete);
            };
            let bit = item_at(&self.phases, variable as usize, false);
            let literal = Literal::new(Variable { number: variable }, bit);
            if !self.trail.is_true(literal) && !self.trail.is_false(literal) {
                self.trail.open_level()?;
                self.trail.assign(literal, None)?;
                return Ok(Decision::Taken);
            }
        }
        Ok(Decision::Complete)
    }

    /// Only the levels up to one stay. Each variable whose bit goes is noted with it. Linear in those that go.
    pub(crate) fn go_back(&mut self, level: u32) -> Result<(), Memory> {
        'places: for _ in 0..self.trail.len() {
            let Some(literal) = self.trail.pop_past(level) else {
                self.trail.close_levels(level);
                return Ok(());
            };
            set_item(&mut self.phases, literal.variable().index(), literal.bit());
            self.scores.put_back(literal.variable().number)?;
        }
        self.trail.close_levels(level);
        Ok(())
    }

    /// The bit of each variable, 0 where it has none. Takes a byte for each.
    pub(crate) fn values(&self, alloc: Global, vars: u32) -> Result<Vec<bool>, Memory> {
        let mut values = Vec::with_capacity(alloc, vars as usize)?;
        'variables: for variable in 0..vars {
            values.push(
                self.trail
                    .is_true(Literal::new(Variable { number: variable }, true)),
            )?;
        }
        Ok(values)
    }
}

/// The first literal of the last clause.
fn last_of(clauses: &[Clause]) -> Literal {
    if clauses.len() == 0 {
        return Literal::none();
    }
    let literals = clauses[clauses.len() - 1].as_slice();
    if literals.len() == 0 {
        return Literal::none();
    }
    Literal::of(literals[0])
}
