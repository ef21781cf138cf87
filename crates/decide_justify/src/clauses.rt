//! The clauses that a search learns.

use crate::span::Span;
use base_lists::Memory;
use sat_watches::{Literal, Variable, item_at, narrow, set_item};
use std::alloc::Global;

/// Clauses by number, in the order in which they were learned. Takes 8 bytes a clause, and 4 a literal.
#[derive(Drop)]
pub(crate) struct Clauses {
    literals: Vec<Literal>,
    spans: Vec<Span>,
}

impl Clauses {
    pub(crate) fn new(alloc: Global) -> Clauses {
        Clauses {
            literals: Vec::new(alloc),
            spans: Vec::new(alloc),
        }
    }

    pub(crate) fn clear(&mut self) {
        self.literals.clear();
        self.spans.clear();
    }

    /// One more, after the others.
    pub(crate) fn add(&mut self, literals: &[Literal]) -> Result<u32, Memory> {
        let number = narrow(self.spans.len());
        let span = Span {
            start: narrow(self.literals.len()),
            count: narrow(literals.len()),
        };
        self.literals.extend_from_slice(literals)?;
        self.spans.push(span)?;
        Ok(number)
    }

    pub(crate) fn span(&self, clause: u32) -> Span {
        item_at(&self.spans, clause as usize, Span::empty())
    }

    /// Literal k of a clause.
    pub(crate) fn literal(&self, clause: u32, k: usize) -> Literal {
        let other = Literal::none();
        item_at(&self.literals, self.span(clause).place(k), other)
    }

    /// Two literals of a clause change places.
    pub(crate) fn swap(&mut self, clause: u32, i: usize, j: usize) {
        let span = self.span(clause);
        let first = self.literal(clause, i);
        let second = self.literal(clause, j);
        set_item(&mut self.literals, span.place(i), second);
        set_item(&mut self.literals, span.place(j), first);
    }
}
