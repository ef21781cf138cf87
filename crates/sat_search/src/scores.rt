//! Scores of variables, which grow as conflicts meet them and count newer conflicts more, in a heap: a change takes the
//! logarithm of the number of variables.

use crate::reads::{flag_at, number_at, set_number};
use sat_proof::trail::Trail;
use std::alloc::{AllocError, Global};

/// The step by which a score grows grows itself by this part of it at each conflict.
const GROWTH: u64 = 16;

/// Past this score all scores are divided by SCALE.
const HIGHEST: u64 = 1152921504606846976;

const SCALE: u64 = 1073741824;

/// No heap is deeper.
const DEPTH: usize = 64;

/// For each variable its score and the number of its place in the heap, from 1, 0 if it isn't there. The heap has the
/// highest score on top.
#[derive(Drop)]
pub(crate) struct Scores {
    scores: Vec<u64>,
    heap: Vec<usize>,
    used: usize,
    spots: Vec<usize>,
    step: u64,
}

impl Scores {
    pub(crate) fn new(alloc: Global, vars: usize) -> Result<Scores, AllocError> {
        let scores = vec![in alloc; 0; vars]?;
        let heap = vec![in alloc; 0; vars]?;
        let spots = vec![in alloc; 0; vars]?;
        Ok(Scores {
            scores,
            heap,
            used: 0,
            spots,
            step: 1024,
        })
    }

    /// The open variable of the highest score leaves the heap, and those above it that have values.
    pub(crate) fn next_open(&mut self, trail: &Trail) -> Option<usize> {
        for _ in 0..self.used {
            let n = self.pop();
            let code = n.saturating_mul(2).saturating_add(2);
            if !flag_at(&trail.marks, code) && !flag_at(&trail.marks, code.saturating_add(1)) {
                return Some(n);
            }
        }
        None
    }

    /// Puts the variables of the trail from `base` on into the heap.
    pub(crate) fn put_back(&mut self, trail: &Trail, base: usize) {
        for j in base..trail.len {
            self.insert((number_at(&trail.codes, j) / 2).saturating_sub(1));
        }
    }

    /// The next scores count more.
    pub(crate) fn grow(&mut self) {
        self.step = self.step.saturating_add(self.step / GROWTH);
    }

    /// A conflict met the variable.
    pub(crate) fn bump(&mut self, n: usize) {
        if n < self.scores.len() {
            self.scores[n] = self.scores[n].saturating_add(self.step);
            if self.scores[n] > HIGHEST {
                self.scale();
            }
            let spot = number_at(&self.spots, n);
            if spot > 0 {
                self.raise(spot - 1);
            }
        }
    }

    fn scale(&mut self) {
        for score in self.scores.iter_mut() {
            *score = *score / SCALE;
        }
        self.step = self.step / SCALE + 1;
    }

    fn insert(&mut self, n: usize) {
        if n < self.spots.len() && self.used < self.heap.len() {
            if self.spots[n] == 0 {
                let at = self.used;
                self.used += 1;
                self.put(at, n);
                self.raise(at);
            }
        }
    }

    /// The variable of the highest score leaves the heap.
    fn pop(&mut self) -> usize {
        let top = number_at(&self.heap, 0);
        if self.used > 0 {
            self.used -= 1;
            self.swap(0, self.used);
            set_number(&mut self.spots, top, 0);
            self.lower();
        }
        top
    }

    /// The variable at a place goes up to where the one above has no lower score.
    fn raise(&mut self, place: usize) {
        let mut at = place;
        for _ in 0..DEPTH {
            if at == 0 {
                return;
            }
            let up = (at - 1) / 2;
            if self.score_at(up) >= self.score_at(at) {
                return;
            }
            self.swap(up, at);
            at = up;
        }
    }

    /// The variable on top goes down to where none below has a higher score.
    fn lower(&mut self) {
        let mut at: usize = 0;
        for _ in 0..DEPTH {
            let best = self.higher_below(at);
            if best >= self.used || self.score_at(at) >= self.score_at(best) {
                return;
            }
            self.swap(at, best);
            at = best;
        }
    }

    /// Of the two places below, the one with the higher score.
    fn higher_below(&self, at: usize) -> usize {
        let left = at.saturating_mul(2).saturating_add(1);
        let right = left.saturating_add(1);
        if right < self.used && self.score_at(right) > self.score_at(left) {
            right
        } else {
            left
        }
    }

    fn score_at(&self, at: usize) -> u64 {
        let n = number_at(&self.heap, at);
        if n < self.scores.len() {
            self.scores[n]
        } else {
            0
        }
    }

    fn swap(&mut self, i: usize, j: usize) {
        let a = number_at(&self.heap, i);
        let b = number_at(&self.heap, j);
        self.put(i, b);
        self.put(j, a);
    }

    fn put(&mut self, at: usize, n: usize) {
        set_number(&mut self.heap, at, n);
        set_number(&mut self.spots, n, at.saturating_add(1));
    }
}
