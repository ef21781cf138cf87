//! The analysis of a conflict: the first unique implication point, from the reasons of the literals of the last level,
//! back from those of the conflict; then local minimisation. Linear in the trail and in the reasons that it meets.

use crate::gates::Gate;
use crate::implication::Implication;
use crate::reason::Reason;
use crate::solver::Solver;
use crate::trail::{Level, Start};
use base_lists::Memory;
use sat_watches::{Literal, Variable};

/// A clause that was learned, by number, and whether no table says it.
#[derive(Clone, Copy, Debug)]
pub(crate) struct Learned {
    pub(crate) clause: u32,
    pub(crate) is_new: bool,
}

impl Solver {
    /// Learns a clause from a conflict, goes back to where it forces its first literal, and makes that true; none where
    /// there is no such clause.
    pub(crate) fn learn(&mut self, conflict: Reason) -> Result<Option<Learned>, Memory> {
        self.seen.forget();
        self.seen.push(Literal::none())?;
        let Some(steps) = self.find_point(conflict)? else {
            return Ok(None);
        };
        let left_out = self.minimize();
        let level = self.put_second();
        self.scores.grow();
        self.go_back(level);
        let clause = self.clauses.add(self.seen.clause())?;
        if self.force_first(clause)? {
            let is_new = steps > 0 || left_out;
            Ok(Some(Learned { clause, is_new }))
        } else {
            Ok(None)
        }
    }

    /// Puts the first unique implication point of the last level in the first place of the clause, and the literals of
    /// earlier levels after it; how many reasons were met on the way, if there is one. With none the clause is what is
    /// false in the conflict, so a table says it.
    fn find_point(&mut self, conflict: Reason) -> Result<Option<usize>, Memory> {
        let mut steps: usize = 0;
        let mut open = self.meet_reason(conflict)?;
        'places: for place in (0..self.trail.len()).rev() {
            let literal = self.trail.literal(place);
            if !self.seen.is_met(literal.variable()) {
                continue 'places;
            }
            if open <= 1 {
                self.seen.set(0, literal.turned());
                return Ok(Some(steps));
            }
            let reason = self.trail.assigned(literal.variable()).reason;
            open = (open - 1).saturating_add(self.meet_reason(reason)?);
            steps = steps.saturating_add(1);
        }
        Ok(None)
    }

    /// Meets the false literals of a reason; how many are new and of the last level.
    fn meet_reason(&mut self, reason: Reason) -> Result<usize, Memory> {
        let mut count: usize = 0;
        'literals: for k in 0..self.literals_of(reason) {
            if let Some(literal) = self.literal_of(reason, k) {
                if self.meet_literal(literal)? {
                    count = count.saturating_add(1);
                }
            }
        }
        Ok(count)
    }

    /// Meets one, if it is false, new, and not of the base level; whether it is of the last level.
    fn meet_literal(&mut self, literal: Literal) -> Result<bool, Memory> {
        let variable = literal.variable();
        let level = self.trail.assigned(variable).level;
        if !self.trail.is_false(literal) || self.seen.is_met(variable) || level.is_base() {
            return Ok(false);
        }
        self.seen.meet(variable)?;
        self.scores.bump(variable);
        if !self.trail.level().is_above(level) {
            return Ok(true);
        }
        self.seen.push(literal)?;
        Ok(false)
    }

    /// How many literals the clause of a reason has at most.
    fn literals_of(&self, reason: Reason) -> usize {
        match reason {
            Reason::Decision => 0,
            Reason::Clause(clause) => self.clauses.span(clause).len(),
            Reason::Implication { gate, .. } => {
                self.gates.gate(gate).arguments.len().saturating_add(1)
            }
        }
    }

    /// Literal k of it, if there is one: an implication has one for each argument, if that is chosen, and after these
    /// the node's own.
    fn literal_of(&self, reason: Reason, k: usize) -> Option<Literal> {
        match reason {
            Reason::Decision => None,
            Reason::Clause(clause) => Some(self.clauses.literal(clause, k)),
            Reason::Implication { gate, place } => {
                let implication = self.tables.implication(place as usize);
                self.literal_in(gate, self.gates.gate(gate), implication, k)
            }
        }
    }

    fn literal_in(
        &self,
        variable: Variable,
        gate: Gate,
        implication: Implication,
        k: usize,
    ) -> Option<Literal> {
        if k >= gate.arguments.len() {
            return Some(Literal::new(variable, implication.forced));
        }
        match implication.chosen(mark_of(k)) {
            None => None,
            Some(bit) => Some(Literal::new(self.gates.argument(gate, k), !bit)),
        }
    }

    /// Leaves out the literals whose reasons have otherwise none that wasn't met; whether there were any.
    fn minimize(&mut self) -> bool {
        let count = self.seen.clause().len();
        let mut kept: usize = 1;
        'literals: for k in 1..count {
            let literal = self.seen.literal(k);
            if !self.is_redundant(literal.variable()) {
                self.seen.set(kept, literal);
                kept = kept.saturating_add(1);
            }
        }
        self.seen.keep(kept);
        kept < count
    }

    fn is_redundant(&self, variable: Variable) -> bool {
        let reason = self.trail.assigned(variable).reason;
        if self.literals_of(reason) == 0 {
            return false;
        }
        'literals: for k in 0..self.literals_of(reason) {
            if let Some(literal) = self.literal_of(reason, k) {
                if self.trail.is_false(literal) && !self.is_covered(literal.variable()) {
                    return false;
                }
            }
        }
        true
    }

    /// Whether a variable was met, or is of the base level.
    fn is_covered(&self, variable: Variable) -> bool {
        self.seen.is_met(variable) || self.trail.assigned(variable).level.is_base()
    }

    /// Puts a literal of the highest level of those after the first in the second place; that level.
    fn put_second(&mut self) -> Level {
        let mut highest = Level::base();
        'literals: for k in 1..self.seen.clause().len() {
            let literal = self.seen.literal(k);
            let level = self.trail.assigned(literal.variable()).level;
            if level.is_above(highest) {
                highest = level;
                let second = self.seen.literal(1);
                self.seen.set(1, literal);
                self.seen.set(k, second);
            }
        }
        highest
    }

    /// Goes back to a level.
    fn go_back(&mut self, level: Level) {
        let Some(start) = self.trail.end_of(level) else {
            return;
        };
        self.take_back(start);
        self.trail.close_levels(level, start);
    }

    /// The literals from the start of a level on go; each node whose bit goes is noted with it. Linear in those that
    /// go.
    fn take_back(&mut self, start: Start) {
        'places: for _ in 0..self.trail.len() {
            let Some(literal) = self.trail.pop_past(start) else {
                return;
            };
            let node = self.variables.node(literal.variable());
            self.phases.note(node, literal.bit());
        }
    }

    /// Goes back to the base level.
    pub(crate) fn restart(&mut self) {
        self.go_back(Level::base());
    }

    /// The clause of a number, which was learned last, gets its watches, and its first literal is true; whether that
    /// wasn't false.
    fn force_first(&mut self, clause: u32) -> Result<bool, Memory> {
        self.watches.add_clause()?;
        let first = self.seen.literal(0);
        if self.seen.clause().len() <= 1 {
            return self.trail.assign(first, Reason::Decision);
        }
        let second = self.seen.literal(1);
        self.watches.note_clause(clause, first, second);
        self.trail.assign(first, Reason::Clause(clause))
    }
}

/// The mark of argument k.
fn mark_of(k: usize) -> u16 {
    if k < 16 { 1 << k } else { 0 }
}
