//! The analysis of a conflict: the first unique implication point, from the clauses that forced the literals of the
//! last level, back from the one that is false; then local minimisation. Linear in the trail and in the clauses that it
//! meets.

use crate::solver::Solver;
use base_lists::Memory;
use sat_watches::Literal;

impl Solver {
    /// Learns a clause from a conflict, goes back to where it forces its first literal, and makes that true; whether
    /// there is such a clause.
    pub(crate) fn learn(&mut self, conflict: u32) -> Result<bool, Memory> {
        self.seen.forget();
        self.seen.push(Literal::none())?;
        if !self.find_point(conflict)? {
            return Ok(false);
        }
        self.minimize()?;
        let level = self.put_second();
        self.scores.grow();
        self.go_back(level)?;
        let clause = self.clauses.add_learned(self.seen.clause())?;
        self.origins.close()?;
        self.watch(clause)?;
        self.trail.assign(self.seen.literal(0), Some(clause))
    }

    /// Puts the first unique implication point of the last level in the first place of the clause, and the literals of
    /// earlier levels after it; whether there is one.
    fn find_point(&mut self, conflict: u32) -> Result<bool, Memory> {
        let mut open = self.meet_clause(conflict)?;
        'places: for place in (0..self.trail.len()).rev() {
            let literal = self.trail.literal(place);
            if !self.seen.is_met(literal.variable()) {
                continue 'places;
            }
            if open <= 1 {
                self.seen.set(0, literal.turned());
                return Ok(true);
            }
            let Some(reason) = self.trail.reason_of(literal) else {
                return Ok(false);
            };
            open = (open - 1).saturating_add(self.meet_clause(reason)?);
        }
        Ok(false)
    }

    /// Meets the false literals of a clause; how many are new and of the last level.
    fn meet_clause(&mut self, clause: u32) -> Result<usize, Memory> {
        self.note_origin(clause)?;
        let mut count: usize = 0;
        'literals: for k in 0..self.clauses.count(clause) {
            let literal = self.clauses.literal(clause, k);
            if self.meet_literal(literal)? {
                count = count.saturating_add(1);
            }
        }
        Ok(count)
    }

    /// Meets one, if it is false, new, and not there without a decision; whether it is of the last level.
    fn meet_literal(&mut self, literal: Literal) -> Result<bool, Memory> {
        let level = self.trail.level_of(literal);
        if !self.trail.is_false(literal) || self.seen.is_met(literal.variable()) || level == 0 {
            return Ok(false);
        }
        self.seen.meet(literal.variable())?;
        self.scores.bump(literal.variable().number);
        if level >= self.trail.level() {
            return Ok(true);
        }
        self.seen.push(literal)?;
        Ok(false)
    }

    /// The clause that is learned next comes from this one, which counts if it is learned too.
    fn note_origin(&mut self, clause: u32) -> Result<(), Memory> {
        if clause >= self.given {
            self.origins.note(clause - self.given)?;
        }
        Ok(())
    }

    /// Leaves out the literals that those that were met force.
    fn minimize(&mut self) -> Result<(), Memory> {
        let count = self.seen.clause().len();
        let mut kept: usize = 1;
        'literals: for k in 1..count {
            let literal = self.seen.literal(k);
            match self.redundant_by(literal) {
                Some(reason) => self.note_origin(reason)?,
                None => {
                    self.seen.set(kept, literal);
                    kept = kept.saturating_add(1);
                }
            }
        }
        self.seen.keep(kept);
        Ok(())
    }

    /// The clause by which those that were met force a literal, if one does.
    fn redundant_by(&self, literal: Literal) -> Option<u32> {
        let reason = self.trail.reason_of(literal)?;
        'literals: for k in 0..self.clauses.count(reason) {
            let other = self.clauses.literal(reason, k);
            if self.trail.is_false(other) && !self.is_covered(other) {
                return None;
            }
        }
        Some(reason)
    }

    /// Whether the variable of a literal was met, or has its bit without a decision.
    fn is_covered(&self, literal: Literal) -> bool {
        self.seen.is_met(literal.variable()) || self.trail.level_of(literal) == 0
    }

    /// Puts a literal of the highest level of those after the first in the second place; that level.
    fn put_second(&mut self) -> u32 {
        let mut highest = 0;
        'literals: for k in 1..self.seen.clause().len() {
            let literal = self.seen.literal(k);
            let level = self.trail.level_of(literal);
            if level > highest {
                highest = level;
                let second = self.seen.literal(1);
                self.seen.set(1, literal);
                self.seen.set(k, second);
            }
        }
        highest
    }
}
