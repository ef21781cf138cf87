//! Scores of variables, which grow as conflicts meet them and count newer conflicts more, in a heap: a change takes the
//! logarithm of the number of variables.

use base_lists::Memory;
use sat_watches::{item_at, narrow, set_item};
use std::alloc::Global;

/// The step by which a score grows grows itself by this part of it at each conflict.
const GROWTH: u64 = 20;

/// Past this score all scores are divided by SCALE.
const HIGHEST: u64 = 1152921504606846976;

const SCALE: u64 = 1073741824;

const FIRST_STEP: u64 = 1024;

/// No heap is deeper.
const DEPTH: usize = 64;

/// For each variable its score and its place in the heap, if it is there. The heap has the highest score on top, and of
/// equal ones the lowest variable. Takes 20 bytes a variable.
#[derive(Drop)]
pub(crate) struct Scores {
    scores: Vec<u64>,
    heap: Vec<u32>,
    places: Vec<Option<u32>>,
    step: u64,
}

impl Scores {
    /// No variables.
    pub(crate) fn new(alloc: Global) -> Scores {
        Scores {
            scores: Vec::new(alloc),
            heap: Vec::new(alloc),
            places: Vec::new(alloc),
            step: FIRST_STEP,
        }
    }

    /// A number of variables, that no conflict met, all of them in the heap.
    pub(crate) fn start(&mut self, vars: u32) -> Result<(), Memory> {
        self.scores.clear();
        self.heap.clear();
        self.places.clear();
        self.step = FIRST_STEP;
        self.scores.resize(vars as usize, 0)?;
        'variables: for variable in 0..vars {
            self.heap.push(variable)?;
            self.places.push(Some(variable))?;
        }
        Ok(())
    }

    /// The variable of the highest score leaves the heap.
    pub(crate) fn pop(&mut self) -> Option<u32> {
        if self.heap.len() == 0 {
            return None;
        }
        let last = self.heap.len() - 1;
        self.swap(0, last);
        let top = self.heap.pop()?;
        set_item(&mut self.places, top as usize, None);
        self.lower();
        Some(top)
    }

    /// A variable comes into the heap, unless it is there.
    pub(crate) fn put_back(&mut self, variable: u32) -> Result<(), Memory> {
        if item_at(&self.places, variable as usize, None).is_some() {
            return Ok(());
        }
        let place = self.heap.len();
        self.heap.push(variable)?;
        set_item(&mut self.places, variable as usize, Some(narrow(place)));
        self.raise(place);
        Ok(())
    }

    /// The next scores count more.
    pub(crate) fn grow(&mut self) {
        self.step = self.step.saturating_add(self.step / GROWTH);
    }

    /// A conflict met a variable.
    pub(crate) fn bump(&mut self, variable: u32) {
        let score = self.score(variable).saturating_add(self.step);
        set_item(&mut self.scores, variable as usize, score);
        if score > HIGHEST {
            self.scale();
        }
        if let Some(place) = item_at(&self.places, variable as usize, None) {
            self.raise(place as usize);
        }
    }

    fn scale(&mut self) {
        'scores: for score in self.scores.iter_mut() {
            *score = *score / SCALE;
        }
        self.step = self.step / SCALE + 1;
    }

    fn score(&self, variable: u32) -> u64 {
        item_at(&self.scores, variable as usize, 0)
    }

    /// The variable at a place goes up to where the one above comes before it.
    fn raise(&mut self, place: usize) {
        let mut at = place;
        'levels: for _ in 0..DEPTH {
            if at == 0 {
                return;
            }
            let up = (at - 1) / 2;
            if self.is_before(up, at) {
                return;
            }
            self.swap(up, at);
            at = up;
        }
    }

    /// The variable on top goes down to where it comes before those below.
    fn lower(&mut self) {
        let mut at: usize = 0;
        'levels: for _ in 0..DEPTH {
            let best = self.first_below(at);
            if best >= self.heap.len() || self.is_before(at, best) {
                return;
            }
            self.swap(at, best);
            at = best;
        }
    }

    /// Of the two places below, the one that comes first.
    fn first_below(&self, at: usize) -> usize {
        let left = at.saturating_mul(2).saturating_add(1);
        let right = left.saturating_add(1);
        if right < self.heap.len() && self.is_before(right, left) {
            right
        } else {
            left
        }
    }

    /// Whether the variable of a place has a higher score than that of another one, or an equal one and is lower.
    fn is_before(&self, a: usize, b: usize) -> bool {
        let first = item_at(&self.heap, a, 0);
        let second = item_at(&self.heap, b, 0);
        let high = self.score(first);
        let low = self.score(second);
        high > low || (high == low && first < second)
    }

    fn swap(&mut self, a: usize, b: usize) {
        let first = item_at(&self.heap, a, 0);
        let second = item_at(&self.heap, b, 0);
        self.put(a, second);
        self.put(b, first);
    }

    fn put(&mut self, place: usize, variable: u32) {
        set_item(&mut self.heap, place, variable);
        set_item(&mut self.places, variable as usize, Some(narrow(place)));
    }
}
