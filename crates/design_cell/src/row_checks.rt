//! Which rows a table may have: the refusals in their order, each by a pass over the rows.

ghost use Rattle.std.specs.Prelude.{◌≡◌, ◌+◌, ◌<◌, ◌≤◌, length, count_by};
ghost use Rattle.std.specs.List.{list_all};
ghost use Rattle.design_cell.specs.Symbol.{is_edge};
ghost use Rattle.design_cell.specs.Refusal.{input_limit, has_state, has_length, is_entry, is_state, is_output};
ghost use Rattle.design_cell.specs.Refusal.{has_symbols, has_one_edge, Checks, Judges};

use crate::conflict::check_conflicts;
use crate::refusal::UdpErr;
use crate::row::RawRow;
use crate::symbol::{Symbol, is_edge_letter, is_level_letter};

/// The refusals but `Memory`, in their order.
pub fn check_rows(sequential: bool, inputs: usize, rows: &[RawRow]) -> Result<(), UdpErr>
    ensures { Judges sequential inputs rows.now result }
{
    if inputs > input_limit(sequential) {
        return Err(UdpErr::TooManyInputs);
    }
    if let Err(row) = check_lengths(rows, sequential, inputs) {
        return Err(UdpErr::RowLength { row });
    }
    if let Err(row) = check_symbols(rows, sequential) {
        return Err(UdpErr::BadSymbol { row });
    }
    if let Err(row) = check_edges(rows) {
        return Err(UdpErr::TwoEdges { row });
    }
    if let Err((i, j)) = check_conflicts(sequential, rows, inputs) {
        return Err(UdpErr::Conflict {
            first: i + 1,
            second: j + 1,
        });
    }
    Ok(())
}

fn input_limit(sequential: bool) -> usize
    ensures { result ≡ input_limit sequential }
{
    if sequential { 9 } else { 10 }
}

fn check_lengths(rows: &[RawRow], sequential: bool, inputs: usize) -> Result<(), usize>
    ensures { Checks (has_length sequential inputs) rows.now result }
{
    for (i, row) in rows.iter().enumerate() {
        if !row.has_length(sequential, inputs) {
            return Err(i + 1);
        }
    }
    Ok(())
}

fn check_symbols(rows: &[RawRow], sequential: bool) -> Result<(), usize>
    ensures { Checks (has_symbols sequential) rows.now result }
{
    for (i, row) in rows.iter().enumerate() {
        if !row.has_symbols(sequential) {
            return Err(i + 1);
        }
    }
    Ok(())
}

fn check_edges(rows: &[RawRow]) -> Result<(), usize>
    ensures { Checks has_one_edge rows.now result }
{
    for (i, row) in rows.iter().enumerate() {
        if !row.has_one_edge() {
            return Err(i + 1);
        }
    }
    Ok(())
}

impl RawRow {
    #[tactic(auto, unfolding(crate::specs::Refusal::has_length))]
    fn has_length(&self, sequential: bool, inputs: usize) -> bool
        ensures { result ≡ has_length sequential inputs self.now }
    {
        let state = self.has_state();
        self.entries.as_slice().len() == inputs && (if sequential { state } else { !state })
    }

    fn has_state(&self) -> bool
        ensures { result ≡ has_state self.now.state }
    {
        match self.state {
            None => false,
            Some(_) => true,
        }
    }

    #[tactic(auto, unfolding(crate::specs::Refusal::has_symbols))]
    fn has_symbols(&self, sequential: bool) -> bool
        ensures { result ≡ has_symbols sequential self.now }
    {
        self.has_entries(sequential)
            && self.has_state_symbol()
            && is_output(sequential, self.output)
    }

    fn has_entries(&self, sequential: bool) -> bool
        ensures { result ≡ list_all (is_entry sequential) self.now.entries }
    {
        self.entries
            .as_slice()
            .iter()
            .all(|symbol| is_entry(sequential, *symbol))
    }

    fn has_state_symbol(&self) -> bool
        ensures { result ≡ is_state self.now.state }
    {
        match self.state {
            None => true,
            Some(symbol) => symbol.is_level(),
        }
    }

    #[tactic(auto, unfolding(crate::specs::Refusal::has_one_edge))]
    fn has_one_edge(&self) -> bool
        ensures { result ≡ has_one_edge self.now }
    {
        let edges = self.edges();
        edges == 0 || edges == 1
    }

    fn edges(&self) -> usize
        ensures { result ≡ count_by is_edge self.now.entries }
    {
        self.entries
            .as_slice()
            .iter()
            .filter(|symbol| symbol.is_edge())
            .count()
    }
}

fn is_entry(sequential: bool, symbol: Symbol) -> bool
    ensures { result ≡ is_entry sequential symbol }
{
    match symbol {
        Symbol::Single(c) => is_level_letter(c) || sequential && is_edge_letter(c),
        Symbol::Change(a, b) => sequential && is_level_letter(a) && is_level_letter(b),
    }
}

fn is_output(sequential: bool, symbol: Symbol) -> bool
    ensures { result ≡ is_output sequential symbol }
{
    match symbol {
        Symbol::Single(c) => c == b'0'
            || c == b'1'
            || c == b'x'
            || c == b'X'
            || sequential && c == b'-',
        Symbol::Change(_, _) => false,
    }
}
