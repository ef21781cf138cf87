//! The table of a primitive (IEEE 1364-2005, clause 8 and annex A.5.3).

ghost use Rattle.std.specs.Prelude.{◌≡◌, ◌≤◌, ℕ, List, [], ◌∷◌, ◌++◌, Option, false, length, OnOk};
ghost use Rattle.design_cell.specs.declared.symbol.Symbol.{Symbol as symbol};
ghost use Rattle.netlist_grammar.specs.Lexemes.{head, is_fixed};
ghost use Rattle.netlist_grammar.specs.Machine.{Column, after_symbol, after_entries};
ghost use Rattle.netlist_grammar.specs.Machine.{State as spec};
ghost use Rattle.netlist_grammar.specs.Trees.{Within, within, with_row, is_sequential, singles};
ghost use Rattle.netlist_grammar.specs.declared.fixed.Fixed.TheVariants as fixed;
ghost use Rattle.netlist_grammar.specs.declared.tree.PrimDeclare.{PrimDeclare as declares};
ghost use Rattle.netlist_grammar.specs.declared.tree.Source.{Source as source};
ghost use Rattle.netlist_grammar.specs.declared.tree.Word.{Word as word};
ghost use Rattle.netlist_reader.specs.Reads.{ReadsTokens, Shortens};

use crate::reader::Reader;
use base_lists::Items;
use design_cell::{RawRow, Symbol};
use netlist_grammar::{Fixed, ParseErr};
use std::alloc::{AllocError, Global};

// row { row } "endtable"
#[tactic(auto, using(crate::proofs::Runs::next_row))]
pub fn rows(
    alloc: Global,
    sequential: bool,
    tokens: &mut Reader<'_>,
) -> Result<Vec<RawRow>, ParseErr>
    ensures reads { (b : source) (n : word) (ps : List word) (ds : List declares) → is_sequential ds ≡ sequential
        → ReadsTokens (spec.first_row (within b n ps ds [])) tokens.old result
        (λ rs. spec.primitive_end (within b n ps ds rs.items)) tokens.new }
    ensures shortens { Shortens tokens.old result tokens.new }
{
    let mut rows = Vec::new(alloc);
    'rows: loop {
        rows.push(row(alloc, sequential, tokens)?)?;
        if tokens.take(Fixed::Endtable) {
            return Ok(rows);
        }
    }
}

// row = entry { entry } ":" [ symbol ":" ] symbol ";"
fn row(alloc: Global, sequential: bool, tokens: &mut Reader<'_>) -> Result<RawRow, ParseErr>
    ensures reads { (p : Within) → is_sequential p.declarations ≡ sequential
        → ReadsTokens (spec.first_row p) tokens.old result (λ r. spec.in_rows (with_row p r)) tokens.new }
    ensures shortens { Shortens tokens.old result tokens.new }
{
    let entries = entries(alloc, tokens)?;
    let state = state(sequential, tokens)?;
    let output = column(tokens)?;
    tokens.expect(Fixed::Semi)?;
    Ok(RawRow {
        entries: Items::from_vec(entries),
        state,
        output,
    })
}

// entry { entry } ":"
fn entries(alloc: Global, tokens: &mut Reader<'_>) -> Result<Vec<Symbol>, ParseErr>
    ensures reads { (p : Within) → ReadsTokens (spec.first_row p)
        tokens.old result (λ es. after_entries p es.items) tokens.new }
    ensures shortens { Shortens tokens.old result tokens.new }
{
    let mut entries = Vec::new(alloc);
    entry(tokens, &mut entries)?;
    'entries: while !tokens.take(Fixed::Colon) {
        entry(tokens, &mut entries)?;
    }
    Ok(entries)
}

/// The symbols of one token, or a change.
fn entry(tokens: &mut Reader<'_>, entries: &mut Vec<Symbol>) -> Result<(), ParseErr>
    ensures first { entries.old.items ≡ [] → (p : Within)
        → ReadsTokens (spec.first_row p) tokens.old result (λ _. spec.in_row p entries.new.items) tokens.new }
    ensures next { is_fixed fixed.Colon (head tokens.old).what ≡ false → (p : Within)
        → ReadsTokens (spec.in_row p entries.old.items) tokens.old result (λ _. spec.in_row p entries.new.items) tokens.new }
    ensures shortens { Shortens tokens.old result tokens.new }
{
    if let Some((first, more)) = tokens.take_symbols() {
        push_singles(entries, first, more)?;
        return Ok(());
    }
    tokens.expect(Fixed::Open)?;
    entries.push(change(tokens)?)?;
    Ok(())
}

fn push_singles(entries: &mut Vec<Symbol>, first: u8, more: &[u8]) -> Result<(), AllocError>
    ensures { OnOk result (entries.new.items ≡ entries.old.items ++ singles (first ∷ more.now)) }
{
    entries.push(Symbol::Single(first))?;
    let mut rest = more;
    'symbols: while let [byte, after @ ..] = rest {
        entries.push(Symbol::Single(*byte))?;
        rest = after;
    }
    Ok(())
}

// [ symbol ":" ], in a sequential primitive alone
fn state(sequential: bool, tokens: &mut Reader<'_>) -> Result<Option<Symbol>, ParseErr>
    ensures reads { (p : Within) (es : List symbol) → is_sequential p.declarations ≡ sequential
        → ReadsTokens (after_entries p es) tokens.old result (λ st. spec.row_output p es st) tokens.new }
    ensures shortens { OnOk result (length tokens.new.tokens ≤ length tokens.old.tokens) }
{
    if !sequential {
        return Ok(None);
    }
    let symbol = column(tokens)?;
    tokens.expect(Fixed::Colon)?;
    Ok(Some(symbol))
}

/// The symbol of a column for the state or the output.
#[tactic(auto, using(crate::proofs::Runs::reads_on))]
fn column(tokens: &mut Reader<'_>) -> Result<Symbol, ParseErr>
    ensures state { (p : Within) (es : List symbol)
        → ReadsTokens (spec.row_state p es) tokens.old result (λ s. spec.after_state p es s) tokens.new }
    ensures output { (p : Within) (es : List symbol) (st : Option symbol)
        → ReadsTokens (spec.row_output p es st) tokens.old result (λ s. spec.after_output_symbol p es st s) tokens.new }
    ensures shortens { Shortens tokens.old result tokens.new }
{
    if let Some(byte) = tokens.take_symbol() {
        return Ok(Symbol::Single(byte));
    }
    tokens.expect(Fixed::Open)?;
    change(tokens)
}

// change = "(" byte byte ")", after its "("
fn change(tokens: &mut Reader<'_>) -> Result<Symbol, ParseErr>
    ensures reads { (k : Column) → ReadsTokens (spec.change_first k) tokens.old result (λ s. after_symbol k s) tokens.new }
    ensures shortens { Shortens tokens.old result tokens.new }
{
    let (first, second) = two_symbols(tokens)?;
    tokens.expect(Fixed::Close)?;
    Ok(Symbol::Change(first, second))
}

/// Two bytes, in one token or two.
fn two_symbols(tokens: &mut Reader<'_>) -> Result<(u8, u8), ParseErr>
    ensures reads { (k : Column) → ReadsTokens (spec.change_first k)
        tokens.old result (λ p. spec.change_close k p.0 p.1) tokens.new }
    ensures shortens { Shortens tokens.old result tokens.new }
{
    let (first, second) = tokens.few_symbols()?;
    if let Some(second) = second {
        return Ok((first, second));
    }
    match tokens.take_symbol() {
        Some(second) => Ok((first, second)),
        None => Err(tokens.peek().fault()),
    }
}
