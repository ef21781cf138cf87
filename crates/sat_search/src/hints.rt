//! Hints: which variable to decide, to which value, and which clause to learn from a conflict. Nothing here is
//! promised. What a hint says is tested before it counts, so a wrong one costs time alone.

use crate::analysis::Analysis;
use crate::found_conflict::FoundConflict;
use crate::phases::Phases;
use crate::scores::Scores;
use sat_proof::trail::Trail;
use std::alloc::{AllocError, Global};

/// Decisions take the variable of the highest score in every second round, else the lowest one.
#[derive(Drop)]
pub(crate) struct Hints {
    phases: Phases,
    scores: Scores,
    analysis: Analysis,
    by_score: bool,
}

impl Hints {
    /// Takes 43 bytes for each variable.
    pub(crate) fn new(alloc: Global, vars: usize) -> Result<Hints, AllocError> {
        let phases = Phases::new(alloc, vars)?;
        let scores = Scores::new(alloc, vars)?;
        let analysis = Analysis::new(alloc, vars)?;
        Ok(Hints {
            phases,
            scores,
            analysis,
            by_score: false,
        })
    }

    /// Learns from a conflict.
    pub(crate) fn take_conflict(&mut self, conflict: &FoundConflict<'_>) {
        self.phases.note(&conflict.propagator.trail);
        self.scores
            .put_back(&conflict.propagator.trail, conflict.base);
        self.by_score = !self.by_score;
        self.scores.grow();
        self.analysis.find(&mut self.scores, conflict);
    }

    /// The clause that the last conflict suggests, none if it is empty. Its last literal is the one of the last level.
    pub(crate) fn candidate(&self) -> &[i32] {
        self.analysis.candidate()
    }

    /// Whether variable n + 1 was true last.
    pub(crate) fn is_true(&self, n: usize) -> bool {
        self.phases.is_true(n)
    }

    /// The open variable of the highest score, in every second round.
    pub(crate) fn next_variable(&mut self, trail: &Trail) -> Option<usize> {
        if self.by_score {
            self.scores.next_open(trail)
        } else {
            None
        }
    }
}
