//! Unit propagation: each literal that became false is read once, and the clauses that watch it are looked at.

use crate::solver::Solver;
use base_lists::Memory;
use sat_watches::{Literal, Watch};

/// What becomes of a watch whose literal is false.
#[derive(Clone, Copy, Debug)]
enum Watched {
    Stays(Literal),
    Moves(Literal, Literal),
    Conflicts,
}

impl Solver {
    /// Reads the trail to its end; the clause that is false, if one is.
    pub(crate) fn propagate(&mut self) -> Result<Option<u32>, Memory> {
        'unread: for _ in 0..u64::MAX {
            let Some(literal) = self.trail.read_next() else {
                return Ok(None);
            };
            if let Some(conflict) = self.visit_watches(literal.turned())? {
                return Ok(Some(conflict));
            }
        }
        Ok(None)
    }

    /// Visits the clauses that watch a literal which is false. Once there is a conflict, the others stay where they
    /// are.
    fn visit_watches(&mut self, falsified: Literal) -> Result<Option<u32>, Memory> {
        let mut conflict = None;
        let mut next = self.watches.take(falsified);
        'watches: for _ in 0..self.watches.len() {
            let Some(watch) = next else {
                return Ok(conflict);
            };
            next = self.watches.next(watch);
            if !self.visit(watch, falsified, conflict.is_some())? {
                conflict = Some(watch.clause());
            }
        }
        Ok(conflict)
    }

    /// Visits one; whether its clause isn't false, or wasn't looked at.
    fn visit(&mut self, watch: Watch, falsified: Literal, is_idle: bool) -> Result<bool, Memory> {
        if is_idle {
            let blocker = self.watches.blocker(watch);
            self.watches.note(falsified, watch, blocker);
            return Ok(true);
        }
        match self.look(watch)? {
            Watched::Stays(blocker) => {
                self.watches.note(falsified, watch, blocker);
                Ok(true)
            }
            Watched::Moves(literal, blocker) => {
                self.watches.note(literal, watch, blocker);
                Ok(true)
            }
            Watched::Conflicts => {
                let blocker = self.watches.blocker(watch);
                self.watches.note(falsified, watch, blocker);
                Ok(false)
            }
        }
    }

    /// Looks at the clause of a watch: where no other literal of it can be watched, the other watched one is forced.
    fn look(&mut self, watch: Watch) -> Result<Watched, Memory> {
        let blocker = self.watches.blocker(watch);
        if self.trail.is_true(blocker) {
            return Ok(Watched::Stays(blocker));
        }
        let other = self.clauses.literal(watch.clause(), watch.other_side());
        if self.trail.is_true(other) {
            return Ok(Watched::Stays(other));
        }
        if let Some(k) = self.replacement(watch.clause()) {
            self.clauses.swap(watch.clause(), watch.side(), k);
            let literal = self.clauses.literal(watch.clause(), watch.side());
            return Ok(Watched::Moves(literal, other));
        }
        if self.trail.assign(other, Some(watch.clause()))? {
            Ok(Watched::Stays(other))
        } else {
            Ok(Watched::Conflicts)
        }
    }

    /// A place in a clause, past the first two, of a literal that isn't false.
    fn replacement(&self, clause: u32) -> Option<usize> {
        'literals: for k in 2..self.clauses.count(clause) {
            if !self.trail.is_false(self.clauses.literal(clause, k)) {
                return Some(k);
            }
        }
        None
    }
}
