//! Scores of variables, which grow as conflicts meet them and count newer conflicts more.

use base_lists::Memory;
use sat_watches::{Variable, item_at, set_item};
use std::alloc::Global;

/// The step by which a score grows grows itself by this part of it at each conflict.
const GROWTH: u64 = 20;

/// Past this score all scores are divided by SCALE.
const HIGHEST: u64 = 1152921504606846976;

const SCALE: u64 = 1073741824;

const FIRST_STEP: u64 = 1024;

/// The score of each variable. Takes 8 bytes a variable.
#[derive(Drop)]
pub(crate) struct Scores {
    scores: Vec<u64>,
    step: u64,
}

impl Scores {
    pub(crate) fn new(alloc: Global) -> Scores {
        Scores {
            scores: Vec::new(alloc),
            step: FIRST_STEP,
        }
    }

    pub(crate) fn clear(&mut self) {
        self.scores.clear();
        self.step = FIRST_STEP;
    }

    /// One more variable, that no conflict met.
    pub(crate) fn add(&mut self) -> Result<(), Memory> {
        self.scores.push(0)?;
        Ok(())
    }

    /// The score of a variable, and half a step more where it is favoured.
    pub(crate) fn score(&self, variable: Variable, is_favoured: bool) -> u64 {
        let score = item_at(&self.scores, variable.index(), 0);
        if is_favoured {
            score.saturating_add(self.step / 2)
        } else {
            score
        }
    }

    /// A conflict met the variable.
    pub(crate) fn bump(&mut self, variable: Variable) {
        let score = self.score(variable, false).saturating_add(self.step);
        set_item(&mut self.scores, variable.index(), score);
        if score > HIGHEST {
            self.scale();
        }
    }

    /// The next scores count more.
    pub(crate) fn grow(&mut self) {
        self.step = self.step.saturating_add(self.step / GROWTH);
    }

    fn scale(&mut self) {
        'scores: for score in self.scores.iter_mut() {
            *score = *score / SCALE;
        }
        self.step = self.step / SCALE + 1;
    }
}
