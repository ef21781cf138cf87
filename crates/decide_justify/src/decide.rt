//! Decisions: the first node on the trail that its arguments don't force takes a bit of an argument.

use crate::gates::Gate;
use crate::implication::Implication;
use crate::reason::Reason;
use crate::solver::Solver;
use base_lists::Memory;
use sat_watches::{Literal, Variable};

/// A literal with its score.
#[derive(Clone, Copy, Debug)]
pub(crate) struct Candidate {
    literal: Literal,
    score: u64,
}

impl Solver {
    /// Takes the next decision, at a new level; whether there is one.
    pub(crate) fn decide(&mut self) -> Result<bool, Memory> {
        match self.pick() {
            None => Ok(false),
            Some(literal) => {
                self.trail.open_level()?;
                self.trail.assign(literal, Reason::Decision)
            }
        }
    }

    /// A bit of an argument of the first node that needs one.
    fn pick(&mut self) -> Option<Literal> {
        'places: for place in self.trail.cursor()..self.trail.len() {
            self.trail.set_cursor(place);
            let found = self.pick_for(self.trail.literal(place));
            if found.is_some() {
                return found;
            }
        }
        let len = self.trail.len();
        self.trail.set_cursor(len);
        None
    }

    /// One for a node with its bit, unless the arguments force that, or each has a bit.
    fn pick_for(&self, wanted: Literal) -> Option<Literal> {
        let gate = self.gates.gate(wanted.variable());
        let known = self.known(gate);
        if known.is_full() {
            return None;
        }
        let mut best = None;
        'implications: for k in 0..gate.implications.len() {
            let implication = self.tables.implication(gate.implications.place(k));
            if implication.forced != wanted.bit() || implication.is_off(known) {
                continue 'implications;
            }
            if implication.open(known) == 0 {
                return None;
            }
            best = self.best_in(gate, implication, best);
        }
        match best {
            None => self.any_open(gate),
            Some(candidate) => Some(candidate.literal),
        }
    }

    /// The best of a candidate and the open arguments that an implication chooses, each with its bit there.
    fn best_in(
        &self,
        gate: Gate,
        implication: Implication,
        before: Option<Candidate>,
    ) -> Option<Candidate> {
        let mut best = before;
        let mut mark: u16 = 1;
        'arguments: for k in 0..gate.arguments.len() {
            if let Some(bit) = implication.chosen(mark) {
                best = self.better(self.gates.argument(gate, k), bit, best);
            }
            mark = mark.wrapping_mul(2);
        }
        best
    }

    /// The better of a candidate and a variable with a bit, if the variable has none yet. It is favoured where it had
    /// that bit last.
    fn better(
        &self,
        variable: Variable,
        bit: bool,
        before: Option<Candidate>,
    ) -> Option<Candidate> {
        if self.trail.value(variable).is_some() {
            return before;
        }
        let candidate = Candidate {
            literal: Literal::new(variable, bit),
            score: self.scores.score(variable, self.had(variable, bit)),
        };
        match before {
            Some(other) if other.score >= candidate.score => before,
            _ => Some(candidate),
        }
    }

    /// Whether the node of a variable had a bit last.
    fn had(&self, variable: Variable, bit: bool) -> bool {
        match self.phases.bit(self.variables.node(variable)) {
            None => false,
            Some(last) => last == bit,
        }
    }

    /// The first argument without a bit, with the one that it had last.
    fn any_open(&self, gate: Gate) -> Option<Literal> {
        'arguments: for k in 0..gate.arguments.len() {
            let argument = self.gates.argument(gate, k);
            if self.trail.value(argument).is_none() {
                return Some(Literal::new(argument, self.had(argument, true)));
            }
        }
        None
    }
}
