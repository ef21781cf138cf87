//! The clauses of a search: those of the formula with two literals or more, and those that it learned.

use base_lists::Memory;
use sat_watches::{Literal, item_at, narrow, set_item};
use std::alloc::Global;

/// So many literals of a list, from one on.
#[derive(Clone, Copy, Debug)]
struct Span {
    start: u32,
    count: u32,
}

/// Clauses by number, in the order in which they came. Takes 8 bytes a clause, and 4 a literal.
#[derive(Drop)]
pub(crate) struct Clauses {
    literals: Vec<Literal>,
    spans: Vec<Span>,
}

impl Clauses {
    /// No clauses.
    pub(crate) fn new(alloc: Global) -> Clauses {
        Clauses {
            literals: Vec::new(alloc),
            spans: Vec::new(alloc),
        }
    }

    /// No clauses any more.
    pub(crate) fn clear(&mut self) {
        self.literals.clear();
        self.spans.clear();
    }

    /// How many clauses there are.
    pub(crate) fn len(&self) -> u32 {
        narrow(self.spans.len())
    }

    /// A clause of a formula comes in; its number.
    pub(crate) fn add(&mut self, literals: &[i32]) -> Result<u32, Memory> {
        let start = narrow(self.literals.len());
        'literals: for literal in literals {
            self.literals.push(Literal::of(*literal))?;
        }
        self.close(start, literals.len())
    }

    /// A clause that was learned comes in; its number.
    pub(crate) fn add_learned(&mut self, literals: &[Literal]) -> Result<u32, Memory> {
        let start = narrow(self.literals.len());
        self.literals.extend_from_slice(literals)?;
        self.close(start, literals.len())
    }

    fn close(&mut self, start: u32, count: usize) -> Result<u32, Memory> {
        let number = self.len();
        let count = narrow(count);
        self.spans.push(Span { start, count })?;
        Ok(number)
    }

    fn span(&self, clause: u32) -> Span {
        item_at(&self.spans, clause as usize, Span { start: 0, count: 0 })
    }

    /// How many literals a clause has.
    pub(crate) fn count(&self, clause: u32) -> usize {
        self.span(clause).count as usize
    }

    /// Literal k of a clause.
    pub(crate) fn literal(&self, clause: u32, k: usize) -> Literal {
        let place = (self.span(clause).start as usize).saturating_add(k);
        item_at(&self.literals, place, Literal::none())
    }

    /// Two literals of a clause change places.
    pub(crate) fn swap(&mut self, clause: u32, i: usize, j: usize) {
        let start = self.span(clause).start as usize;
        let first = self.literal(clause, i);
        let second = self.literal(clause, j);
        set_item(&mut self.literals, start.saturating_add(i), second);
        set_item(&mut self.literals, start.saturating_add(j), first);
    }
}
