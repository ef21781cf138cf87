//! Rows of a primitive's table, as they are read.

ghost use Rattle.std.specs.Prelude.{◌≡◌, IfOk, IsTrue};
ghost use Rattle.design_cell.specs.Row.{symbol_at, is_edge_row};

use crate::symbol::Symbol;
use crate::value::Value;
use base_lists::Items;
use std::alloc::{AllocError, Global};

/// A row: a symbol for each input, one for the state in a sequential primitive, and one for the output.
#[derive(Debug, Drop)]
pub struct RawRow {
    pub entries: Items<Symbol>,
    pub state: Option<Symbol>,
    pub output: Symbol,
}

/// A pin that has just changed, with its value before.
#[derive(Clone, Copy)]
pub(crate) struct Changed {
    pub pin: usize,
    pub old: Value,
}

impl RawRow {
    /// The symbol of a column. The state is the column behind the last entry.
    pub(crate) fn symbol_at(&self, c: usize) -> Symbol
        ensures { result ≡ symbol_at self.now c }
    {
        let entries = self.entries.as_slice();
        if c < entries.len() {
            entries[c]
        } else {
            match self.state {
                None => Symbol::Single(b'?'),
                Some(symbol) => symbol,
            }
        }
    }

    pub(crate) fn is_same(&self, other: &RawRow) -> bool
        ensures { IsTrue result → self.now ≡ other.now }
    {
        self.output == other.output
            && self.state == other.state
            && same_symbols(self.entries.as_slice(), other.entries.as_slice())
    }

    pub(crate) fn is_edge_row(&self) -> bool
        ensures { result ≡ is_edge_row self.now }
    {
        self.entries
            .as_slice()
            .iter()
            .any(|symbol| symbol.is_edge())
    }

    pub(crate) fn copied(&self, alloc: Global) -> Result<RawRow, AllocError>
        ensures { IfOk result (λ row. row ≡ self.now) }
    {
        let entries = Vec::from_slice(alloc, self.entries.as_slice())?;
        Ok(RawRow {
            entries: Items::from_vec(entries),
            state: self.state,
            output: self.output,
        })
    }
}

fn same_symbols(symbols: &[Symbol], others: &[Symbol]) -> bool
    ensures { IsTrue result → symbols.now ≡ others.now }
{
    symbols == others
}
