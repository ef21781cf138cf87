//! The bits that variables have, in the order in which they got them, by levels of decisions.

use base_lists::Memory;
use sat_watches::{Literal, item_at, narrow, set_item};
use std::alloc::Global;

/// Which literals are true; for each variable how many decisions came before its bit, and the clause that forced it;
/// and the true literals in order, of which the first ones are read. Takes 20 bytes a variable, and 4 a level.
#[derive(Drop)]
pub(crate) struct Trail {
    truths: Vec<bool>,
    levels: Vec<u32>,
    reasons: Vec<Option<u32>>,
    literals: Vec<Literal>,
    starts: Vec<u32>,
    read: usize,
}

impl Trail {
    /// No variables.
    pub(crate) fn new(alloc: Global) -> Trail {
        Trail {
            truths: Vec::new(alloc),
            levels: Vec::new(alloc),
            reasons: Vec::new(alloc),
            literals: Vec::new(alloc),
            starts: Vec::new(alloc),
            read: 0,
        }
    }

    /// A number of variables, without bits.
    pub(crate) fn start(&mut self, vars: usize) -> Result<(), Memory> {
        self.truths.clear();
        self.levels.clear();
        self.reasons.clear();
        self.literals.clear();
        self.starts.clear();
        self.read = 0;
        self.truths.resize(vars.saturating_mul(2), false)?;
        self.levels.resize(vars, 0)?;
        self.reasons.resize(vars, None)?;
        Ok(())
    }

    pub(crate) fn is_true(&self, literal: Literal) -> bool {
        item_at(&self.truths, literal.index(), false)
    }

    pub(crate) fn is_false(&self, literal: Literal) -> bool {
        self.is_true(literal.turned())
    }

    /// How many decisions came before the bit of a literal's variable.
    pub(crate) fn level_of(&self, literal: Literal) -> u32 {
        item_at(&self.levels, literal.variable().index(), 0)
    }

    /// The clause that forced it; none for a decision.
    pub(crate) fn reason_of(&self, literal: Literal) -> Option<u32> {
        item_at(&self.reasons, literal.variable().index(), None)
    }

    /// Makes a literal true, unless it is; whether it wasn't false.
    pub(crate) fn assign(&mut self, literal: Literal, reason: Option<u32>) -> Result<bool, Memory> {
        if self.is_false(literal) {
            return Ok(false);
        }
        if !self.is_true(literal) {
            let level = self.level();
            self.literals.push(literal)?;
            set_item(&mut self.truths, literal.index(), true);
            set_item(&mut self.levels, literal.variable().index(), level);
            set_item(&mut self.reasons, literal.variable().index(), reason);
        }
        Ok(true)
    }

    /// How many variables there are.
    pub(crate) fn vars(&self) -> usize {
        self.levels.len()
    }

    /// How many decisions there are.
    pub(crate) fn level(&self) -> u32 {
        narrow(self.starts.len())
    }

    /// How many literals there are.
    pub(crate) fn len(&self) -> usize {
        self.literals.len()
    }

    /// The literal of a place on the trail.
    pub(crate) fn literal(&self, place: usize) -> Literal {
        item_at(&self.literals, place, Literal::none())
    }

    /// The first literal that isn't read, which is read then.
    pub(crate) fn read_next(&mut self) -> Option<Literal> {
        if self.read < self.literals.len() {
            let literal = self.literals[self.read];
            self.read = self.read.saturating_add(1);
            Some(literal)
        } else {
            None
        }
    }

    /// A new level begins.
    pub(crate) fn open_level(&mut self) -> Result<(), Memory> {
        let start = narrow(self.literals.len());
        self.starts.push(start)?;
        Ok(())
    }

    /// The last literal goes, if it is past a level.
    pub(crate) fn pop_past(&mut self, level: u32) -> Option<Literal> {
        let start = item_at(&self.starts, level as usize, u32::MAX);
        if self.literals.len() <= start as usize {
            return None;
        }
        let literal = self.literals.pop()?;
        set_item(&mut self.truths, literal.index(), false);
        Some(literal)
    }

    /// Only the levels up to one stay, whose literals are those that are left.
    pub(crate) fn close_levels(&mut self, level: u32) {
        self.starts.truncate(level as usize);
        self.read = self.read.min(self.literals.len());
    }
}
