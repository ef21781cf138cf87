//! The analysis of a conflict: the first unique implication point, from the clauses that forced the literals of the
//! last level, back from the false clause. Linear in the trail and in the clauses that watch a literal which it meets.
//! No reasons are kept: the clause that forced a literal watches it, and its other literals came earlier.

use crate::found_conflict::FoundConflict;
use crate::reads::{flag_at, number_at, set_flag, set_number};
use crate::scores::Scores;
use sat_proof::code::code;
use sat_proof::trail::Trail;
use std::alloc::{AllocError, Global};

/// For each code whether the analysis met it, and its place on the trail; and the clause that the analysis came to.
#[derive(Drop)]
pub(crate) struct Analysis {
    seen: Vec<bool>,
    places: Vec<usize>,
    candidate: Vec<i32>,
}

impl Analysis {
    pub(crate) fn new(alloc: Global, vars: usize) -> Result<Analysis, AllocError> {
        let codes = vars.saturating_mul(2).saturating_add(2);
        let seen = vec![in alloc; false; codes]?;
        let places = vec![in alloc; 0; codes]?;
        let candidate = Vec::new(alloc);
        Ok(Analysis {
            seen,
            places,
            candidate,
        })
    }

    pub(crate) fn candidate(&self) -> &[i32] {
        self.candidate.as_slice()
    }

    /// Looks for the first unique implication point of the last level; leaves the candidate empty where there is none.
    pub(crate) fn find(&mut self, scores: &mut Scores, conflict: &FoundConflict<'_>) {
        let trail = &conflict.propagator.trail;
        self.start(trail);
        if trail.read == 0 {
            return;
        }
        let last = number_at(&trail.codes, trail.read - 1);
        let Some(owner) = self.clause_of(conflict, last, last, trail.len) else {
            return;
        };
        let mut open = self.meet(scores, conflict, owner);
        let mut at = trail.len;
        'points: while at > conflict.top {
            at -= 1;
            let here = number_at(&trail.codes, at);
            if !flag_at(&self.seen, here) {
                continue;
            }
            if open <= 1 {
                self.write(conflict, here);
                return;
            }
            open -= 1;
            let Some(reason) = self.clause_of(conflict, twin(here), here, at) else {
                return;
            };
            open = open.saturating_add(self.meet(scores, conflict, reason));
        }
    }

    /// Nothing is met yet; notes the place of each literal on the trail.
    fn start(&mut self, trail: &Trail) {
        self.candidate.clear();
        for flag in self.seen.iter_mut() {
            *flag = false;
        }
        for j in 0..trail.len {
            set_number(&mut self.places, number_at(&trail.codes, j), j);
        }
    }

    /// A clause that watches the literal of code `watched` and whose literals are false before place `before`, but for
    /// the complement of the literal of code `forced`. In a conflict the watched literal is false itself.
    fn clause_of(
        &self,
        conflict: &FoundConflict<'_>,
        watched: usize,
        forced: usize,
        before: usize,
    ) -> Option<usize> {
        let trail = &conflict.propagator.trail;
        let watch = &conflict.propagator.watch;
        let mut at = number_at(&watch.heads, watched);
        for _ in 0..number_at(&watch.counts, watched) {
            if at == 0 {
                return None;
            }
            let owner = (at - 1) / 2;
            if owner < conflict.clauses.len() {
                let literals = conflict.clauses.literals(owner);
                if self.are_before(trail, literals, twin(forced), before) {
                    return Some(owner);
                }
            }
            at = number_at(&watch.nexts, at - 1);
        }
        None
    }

    /// Whether each literal but that of code `other` is false, and came before a place.
    fn are_before(&self, trail: &Trail, literals: &[i32], other: usize, before: usize) -> bool {
        for literal in literals {
            if *literal != 0 {
                let here = code(*literal);
                if here != other {
                    if !flag_at(&trail.marks, here) || number_at(&self.places, here) >= before {
                        return false;
                    }
                }
            }
        }
        true
    }

    /// Meets the false literals of a clause; how many are new and of the last level.
    fn meet(&mut self, scores: &mut Scores, conflict: &FoundConflict<'_>, owner: usize) -> usize {
        let trail = &conflict.propagator.trail;
        let mut count: usize = 0;
        if owner < conflict.clauses.len() {
            for literal in conflict.clauses.literals(owner) {
                if *literal != 0 {
                    let here = code(*literal);
                    let place = number_at(&self.places, here);
                    if flag_at(&trail.marks, here)
                        && !flag_at(&self.seen, here)
                        && place >= conflict.base
                    {
                        set_flag(&mut self.seen, here, true);
                        scores.bump((here / 2).saturating_sub(1));
                        if place >= conflict.top {
                            count = count.saturating_add(1);
                        }
                    }
                }
            }
        }
        count
    }

    /// Writes the candidate: the literals of earlier levels in the order of the trail, and the one of the last level.
    fn write(&mut self, conflict: &FoundConflict<'_>, point: usize) {
        let trail = &conflict.propagator.trail;
        for j in conflict.base..conflict.top {
            let here = number_at(&trail.codes, j);
            if flag_at(&self.seen, here) {
                if self.candidate.push(literal_of(here)).is_err() {
                    self.candidate.clear();
                    return;
                }
            }
        }
        if self.candidate.push(literal_of(point)).is_err() {
            self.candidate.clear();
        }
    }
}

/// The code of the complement.
fn twin(here: usize) -> usize {
    if here % 2 == 0 {
        here.saturating_add(1)
    } else {
        here.saturating_sub(1)
    }
}

/// The literal of a code, 0 where that is too large.
fn literal_of(here: usize) -> i32 {
    let variable = here / 2;
    if variable > 2147483647 {
        return 0;
    }
    let literal = variable as i32;
    if here % 2 == 0 { literal } else { -literal }
}
