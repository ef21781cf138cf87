//! A search by conflict-driven clause learning: decisions by score, each to the bit that its variable had last, up to a
//! conflict, a clause from that, and back to where the clause forces its first literal. What it finds isn't promised.

use crate::restarts::Restarts;
use crate::solver::{Decision, Solver};
use base_lists::Memory;
use sat_proof::{Cnf, Log, Model};
use sat_watches::narrow;
use std::alloc::Global;

/// What a search comes to: a model, a log that refutes, or nothing in as many conflicts as were allowed. Nothing of it
/// is promised.
#[derive(Debug, Drop)]
pub(crate) enum Guess {
    Model(Model),
    Log(Log),
    Nothing,
}

impl Solver {
    /// A guess about a formula, by a search that ends after a number of conflicts.
    pub(crate) fn guess(
        &mut self,
        alloc: Global,
        formula: &Cnf,
        conflicts: u32,
    ) -> Result<Guess, Memory> {
        self.start(formula)?;
        if let Some(conflict) = self.broken {
            return Ok(Guess::Log(self.log_of_conflict(alloc, conflict)?));
        }
        let mut restarts = Restarts::new(conflicts);
        'steps: for _ in 0..u64::MAX {
            if let Some(guess) = self.step(alloc, formula.vars, &mut restarts)? {
                return Ok(guess);
            }
        }
        Ok(Guess::Nothing)
    }

    /// Propagates, and then learns from a conflict or takes a decision.
    fn step(
        &mut self,
        alloc: Global,
        vars: u32,
        restarts: &mut Restarts,
    ) -> Result<Option<Guess>, Memory> {
        if let Some(conflict) = self.propagate()? {
            return self.take_conflict(alloc, conflict, restarts);
        }
        match self.decide()? {
            Decision::Taken => Ok(None),
            Decision::Complete => {
                let values = self.values(alloc, vars)?;
                Ok(Some(Guess::Model(Model::from_vec(values))))
            }
            Decision::Denied(literal) => {
                let log = self.log_of_denied(alloc, literal)?;
                Ok(Some(Guess::Log(log)))
            }
        }
    }

    /// Learns from a conflict, and goes back; unless it is one without a decision, or one more than is allowed.
    fn take_conflict(
        &mut self,
        alloc: Global,
        conflict: u32,
        restarts: &mut Restarts,
    ) -> Result<Option<Guess>, Memory> {
        if self.trail.level() == 0 {
            self.broken = Some(conflict);
            let log = self.log_of_conflict(alloc, conflict)?;
            return Ok(Some(Guess::Log(log)));
        }
        if restarts.is_over() || !self.learn(conflict)? {
            return Ok(Some(Guess::Nothing));
        }
        if restarts.is_due() {
            let level = narrow(self.units.len());
            self.go_back(level)?;
        }
        Ok(None)
    }
}
