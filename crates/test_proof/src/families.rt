//! Families of small formulas, each solved and tried against all assignments.

use crate::answer::{Answer, Tally};
use crate::dimacs::formula_over;
use crate::searches::solved;
use base_lists::Memory;
use std::alloc::{AllocError, Global};

/// No family has more variables.
const VARS: u32 = 12;

/// A family: formulas of a given number of clauses over a given number of variables.
#[derive(Clone, Copy)]
pub(crate) struct Family {
    pub clauses: u32,
    pub vars: u32,
}

impl Family {
    /// Each formula whose clauses have ascending numbers. Clause number m has the ternary digits of m: 0 leaves a
    /// variable out, 1 is its literal, 2 the complement.
    pub(crate) fn every(self, alloc: Global, limit: u32) -> Result<Answer, Memory> {
        let mut tally = Tally::new();
        let kinds = 3u64.saturating_pow(self.vars);
        for number in 0..kinds.saturating_pow(self.clauses) {
            let mut numbers = Vec::new(alloc);
            if self.put_every(&mut numbers, number, kinds)? {
                self.try_one(alloc, &mut tally, numbers.as_slice(), limit)?;
            }
        }
        Ok(Answer::Tally(tally))
    }

    /// Puts the clauses that a number stands for, whose digits are their numbers; whether these ascend.
    fn put_every(
        self,
        numbers: &mut Vec<i32>,
        number: u64,
        kinds: u64,
    ) -> Result<bool, AllocError> {
        let mut rest = number;
        let mut last = 0;
        for _ in 0..self.clauses {
            let clause = rest.checked_rem(kinds).unwrap_or(0);
            if clause < last {
                return Ok(false);
            }
            last = clause;
            rest = rest.checked_div(kinds).unwrap_or(0);
            self.put_clause(numbers, clause)?;
        }
        Ok(true)
    }

    fn put_clause(self, numbers: &mut Vec<i32>, clause: u64) -> Result<(), AllocError> {
        let mut rest = clause;
        for n in 1..self.vars.min(VARS) + 1 {
            match rest % 3 {
                1 => numbers.push(n as i32)?,
                2 => numbers.push(-(n as i32))?,
                _ => {}
            }
            rest = rest / 3;
        }
        numbers.push(0)?;
        Ok(())
    }

    /// `count` formulas of clauses with three literals, drawn from a seed of their own. A clause may hold a variable
    /// twice.
    pub(crate) fn drawn(self, alloc: Global, count: u32, limit: u32) -> Result<Answer, Memory> {
        let mut tally = Tally::new();
        for seed in 0..count {
            let mut draw = Draw { state: seed };
            let mut numbers = Vec::new(alloc);
            for _ in 0..self.clauses {
                for _ in 0..3 {
                    numbers.push(draw.literal(self.vars))?;
                }
                numbers.push(0)?;
            }
            self.try_one(alloc, &mut tally, numbers.as_slice(), limit)?;
        }
        Ok(Answer::Tally(tally))
    }

    /// Solves a formula, and counts the answer if it holds.
    fn try_one(
        self,
        alloc: Global,
        tally: &mut Tally,
        numbers: &[i32],
        limit: u32,
    ) -> Result<(), Memory> {
        let Some(formula) = formula_over(alloc, numbers, self.vars)? else {
            return Ok(());
        };
        let has_model = has_model(alloc, numbers, self.vars)?;
        match solved(alloc, &formula, limit)? {
            Answer::Model if has_model => tally.models = tally.models.saturating_add(1),
            Answer::Refuted if !has_model => tally.refuted = tally.refuted.saturating_add(1),
            Answer::Limit => tally.limits = tally.limits.saturating_add(1),
            _ => {}
        }
        Ok(())
    }
}

/// A linear congruential generator.
#[derive(Drop)]
struct Draw {
    state: u32,
}

impl Draw {
    fn next(&mut self) -> u32 {
        self.state = self.state.wrapping_mul(1664525).wrapping_add(1013904223);
        self.state >> 16
    }

    /// A literal of one of a given number of variables.
    fn literal(&mut self, vars: u32) -> i32 {
        let variable = self.next().checked_rem(vars.min(VARS)).unwrap_or(0) + 1;
        if self.next() % 2 == 0 {
            variable as i32
        } else {
            -(variable as i32)
        }
    }
}

/// The variables of a clause that are true and those that are false in it, a bit each.
#[derive(Clone, Copy)]
struct Masks {
    positive: u32,
    negative: u32,
}

impl Masks {
    fn is_met(self, values: u32) -> bool {
        (values & self.positive) | (!values & self.negative) != 0
    }
}

/// Whether an assignment makes each clause true, of all that there are.
fn has_model(alloc: Global, numbers: &[i32], vars: u32) -> Result<bool, AllocError> {
    let masks = masks_of(alloc, numbers)?;
    for values in 0..1u32 << vars.min(VARS) {
        if are_met(masks.as_slice(), values) {
            return Ok(true);
        }
    }
    Ok(false)
}

fn are_met(clauses: &[Masks], values: u32) -> bool {
    for clause in clauses {
        if !clause.is_met(values) {
            return false;
        }
    }
    true
}

fn masks_of(alloc: Global, numbers: &[i32]) -> Result<Vec<Masks>, AllocError> {
    let mut clauses = Vec::new(alloc);
    let mut masks = Masks {
        positive: 0,
        negative: 0,
    };
    for number in numbers {
        let bit = bit_of(number.unsigned_abs());
        if *number > 0 {
            masks.positive = masks.positive | bit;
        } else if *number < 0 {
            masks.negative = masks.negative | bit;
        } else {
            clauses.push(masks)?;
            masks = Masks {
                positive: 0,
                negative: 0,
            };
        }
    }
    Ok(clauses)
}

/// The bit of a variable, from 1.
fn bit_of(variable: u32) -> u32 {
    1u32 << (variable.saturating_sub(1) % 32)
}
