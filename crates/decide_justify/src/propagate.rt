//! Propagation: what follows from the bits on the trail by the tables of nodes and by learned clauses. Linear in the
//! implications of the nodes that read a variable and in the clauses that watch its literals.

use crate::gates::Gate;
use crate::implication::{Force, Known};
use crate::reason::Reason;
use crate::solver::Solver;
use base_lists::Memory;
use sat_watches::{Literal, Variable, Watch, narrow};

/// How propagation ends: nothing more follows, a node isn't read in yet, or there is a conflict: all literals of a
/// reason are false.
#[derive(Clone, Copy, Debug)]
pub(crate) enum Propagated {
    All,
    Wanted(u32),
    Conflict(Reason),
}

/// What becomes of a watch whose literal is false.
#[derive(Clone, Copy, Debug)]
pub(crate) enum Watched {
    Stays(Literal),
    Moves(Literal, Literal),
    Conflicts,
}

impl Solver {
    /// Reads the trail to its end.
    pub(crate) fn propagate(&mut self) -> Result<Propagated, Memory> {
        'unread: for _ in 0..u64::MAX {
            let Some(literal) = self.trail.unread() else {
                return Ok(Propagated::All);
            };
            let variable = literal.variable();
            if !self.gates.gate(variable).is_read {
                return Ok(Propagated::Wanted(self.variables.node(variable)));
            }
            self.trail.advance();
            if let Some(conflict) = self.pass_on(literal)? {
                return Ok(Propagated::Conflict(conflict));
            }
        }
        Ok(Propagated::All)
    }

    /// What follows from one literal: by the clauses, by the node's own table, and by those of its readers.
    fn pass_on(&mut self, literal: Literal) -> Result<Option<Reason>, Memory> {
        if let Some(conflict) = self.visit_watches(literal.turned())? {
            return Ok(Some(conflict));
        }
        if let Some(conflict) = self.examine(literal.variable())? {
            return Ok(Some(conflict));
        }
        self.examine_readers(literal.variable())
    }

    fn examine_readers(&mut self, variable: Variable) -> Result<Option<Reason>, Memory> {
        let mut entry = self.readers.first(variable);
        'entries: for _ in 0..self.readers.len() {
            let Some(here) = entry else {
                return Ok(None);
            };
            let reader = self.readers.reader(here);
            if let Some(conflict) = self.examine(reader.gate)? {
                return Ok(Some(conflict));
            }
            entry = reader.next;
        }
        Ok(None)
    }

    /// What the table of a node says now.
    fn examine(&mut self, variable: Variable) -> Result<Option<Reason>, Memory> {
        let gate = self.gates.gate(variable);
        let known = self.known(gate);
        let own = self.trail.value(variable);
        'implications: for k in 0..gate.implications.len() {
            let place = gate.implications.place(k);
            let reason = Reason::Implication {
                gate: variable,
                place: narrow(place),
            };
            match self.forced(variable, gate, known, own, place) {
                None => {}
                Some(literal) => {
                    if !self.trail.assign(literal, reason)? {
                        return Ok(Some(reason));
                    }
                }
            }
        }
        Ok(None)
    }

    /// The literal that an implication forces.
    fn forced(
        &self,
        variable: Variable,
        gate: Gate,
        known: Known,
        own: Option<bool>,
        place: usize,
    ) -> Option<Literal> {
        let implication = self.tables.implication(place);
        match implication.force(known, own) {
            Force::Nothing => None,
            Force::Node => Some(Literal::new(variable, implication.forced)),
            Force::Argument(mark) => {
                let argument = self.gates.argument(gate, mark.trailing_zeros() as usize);
                Some(Literal::new(argument, implication.bits & mark == 0))
            }
        }
    }

    /// The bits of a gate's arguments that are known.
    pub(crate) fn known(&self, gate: Gate) -> Known {
        let mut known = Known::none();
        let mut mark: u16 = 1;
        'arguments: for k in 0..gate.arguments.len() {
            known = known.with(mark, self.trail.value(self.gates.argument(gate, k)));
            mark = mark.wrapping_mul(2);
        }
        known
    }

    /// Visits the clauses that watch a literal which is false. Once there is a conflict, the others stay where they
    /// are.
    fn visit_watches(&mut self, falsified: Literal) -> Result<Option<Reason>, Memory> {
        let mut conflict = None;
        let mut next = self.watches.take(falsified);
        'watches: for _ in 0..self.watches.len() {
            let Some(watch) = next else {
                return Ok(conflict);
            };
            next = self.watches.next(watch);
            if !self.visit(watch, falsified, conflict.is_some())? {
                conflict = Some(Reason::Clause(watch.clause()));
            }
        }
        Ok(conflict)
    }

    /// Visits one; whether its clause isn't false, or wasn't looked at.
    fn visit(&mut self, watch: Watch, falsified: Literal, is_idle: bool) -> Result<bool, Memory> {
        if is_idle {
            let blocker = self.watches.blocker(watch);
            self.watches.note(falsified, watch, blocker);
            return Ok(true);
        }
        match self.look(watch)? {
            Watched::Stays(blocker) => {
                self.watches.note(falsified, watch, blocker);
                Ok(true)
            }
            Watched::Moves(literal, blocker) => {
                self.watches.note(literal, watch, blocker);
                Ok(true)
            }
            Watched::Conflicts => {
                let blocker = self.watches.blocker(watch);
                self.watches.note(falsified, watch, blocker);
                Ok(false)
            }
        }
    }

    /// Looks at the clause of a watch: where no other literal of it can be watched, the other watched one is forced.
    fn look(&mut self, watch: Watch) -> Result<Watched, Memory> {
        let blocker = self.watches.blocker(watch);
        if self.trail.is_true(blocker) {
            return Ok(Watched::Stays(blocker));
        }
        let other = self.clauses.literal(watch.clause(), watch.other_side());
        if self.trail.is_true(other) {
            return Ok(Watched::Stays(other));
        }
        if let Some(k) = self.replacement(watch.clause()) {
            self.clauses.swap(watch.clause(), watch.side(), k);
            let literal = self.clauses.literal(watch.clause(), watch.side());
            return Ok(Watched::Moves(literal, other));
        }
        if self.trail.assign(other, Reason::Clause(watch.clause()))? {
            Ok(Watched::Stays(other))
        } else {
            Ok(Watched::Conflicts)
        }
    }

    /// A place in a clause, past the first two, of a literal that isn't false.
    fn replacement(&self, clause: u32) -> Option<usize> {
        'literals: for k in 2..self.clauses.span(clause).len() {
            if !self.trail.is_false(self.clauses.literal(clause, k)) {
                return Some(k);
            }
        }
        None
    }
}
