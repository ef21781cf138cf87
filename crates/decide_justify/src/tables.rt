//! The implications of tables, which stay between searches.

ghost use Rattle.std.specs.Prelude.{◌≡◌, IfOk};
ghost use Rattle.decide_justify.specs.Tables.{FitFourBytes, implications_of};

use crate::implication::Implication;
use crate::span::Span;
use base_lists::Memory;
use sat_watches::{item_at, narrow};
use std::alloc::Global;

/// A table that was read in, by number.
#[derive(Clone, Copy, Debug)]
pub struct Table {
    number: u32,
}

/// Tables by number. Takes 8 bytes a table, and 6 an implication.
#[derive(Drop)]
pub(crate) struct Tables {
    implications: Vec<Implication>,
    spans: Vec<Span>,
}

impl Tables {
    /// No tables.
    pub(crate) fn new(alloc: Global) -> Tables {
        Tables {
            implications: Vec::new(alloc),
            spans: Vec::new(alloc),
        }
    }

    /// A table comes in, by what it says of at most 16 arguments.
    pub(crate) fn add(&mut self, implications: &[Implication]) -> Result<Table, Memory>
        ensures { FitFourBytes self.new → IfOk result (λ table. implications_of self.new table ≡ implications.now) }
    {
        let number = narrow(self.spans.len());
        let span = Span {
            start: narrow(self.implications.len()),
            count: narrow(implications.len()),
        };
        self.implications.extend_from_slice(implications)?;
        self.spans.push(span)?;
        Ok(Table { number })
    }

    /// Where the implications of a table stand.
    pub(crate) fn span(&self, table: Table) -> Span {
        item_at(&self.spans, table.number as usize, Span::empty())
    }

    /// The implication that stands at a place.
    pub(crate) fn implication(&self, place: usize) -> Implication {
        item_at(&self.implications, place, Implication::none())
    }
}
