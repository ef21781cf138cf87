//! An index of a table's rows: for each 64 rows a word for each column and pair of values, one bit a row.

ghost use Rattle.std.specs.Prelude.{◌≡◌, ◌≢◌, ◌+◌, ◌*◌, ◌<◌, ◌≤◌, ◌==◌, ◌^◌, ℕ, length, slice_index, IfOk, IfSome};
ghost use Rattle.std.specs.Int.{bit_at};
ghost use Rattle.design_cell.specs.Symbol.{fits, differ, output_of};
ghost use Rattle.design_cell.specs.Row.{symbol_at, is_edge_row, before, row_at};
ghost use Rattle.design_cell.specs.Conflict.{IsPinBelow};
ghost use Rattle.design_cell.specs.Index.{code, value_of, IsMask, IsCell, IsOutputCell, IsBlock, IsIndexed};
ghost use Rattle.design_cell.specs.Index.{TellsRows, FindsFirst, GoesOn, matching, level_matching, edge_matching};

use crate::row::{Changed, RawRow};
use crate::value::Value;
use std::alloc::{AllocError, Global};

/// The words of 64 rows: that of column c and the values with codes old and new is number 9 * c + 3 * old + new, that
/// of the output with a code at the state with a code is number 3 * state + output.
#[derive(Clone, Copy, Debug)]
pub struct Block {
    pub masks: [u64; 99],
    pub edges: u64,
    pub outputs: [u64; 9],
}

impl Block {
    /// No rows.
    pub const EMPTY: Block = Block {
        masks: [0; 99],
        edges: 0,
        outputs: [0; 9],
    };
}

/// The blocks of all rows. Takes 872 bytes for each 64 rows, and for what is left of them.
pub fn make_blocks(alloc: Global, rows: &[RawRow]) -> Result<Vec<Block>, AllocError>
    ensures { IfOk result (λ blocks. IsIndexed rows.now blocks.items) }
{
    let mut blocks = Vec::new(alloc);
    for j in 0..rows.len() / 64 + 1 {
        blocks.push(block_of(rows, 64 * j))?;
    }
    Ok(blocks)
}

/// The block of the 64 rows from a base on.
pub fn block_of(rows: &[RawRow], base: usize) -> Block
    requires { base ≤ length rows.now }
    ensures { IsBlock rows.now base result }
{
    Block {
        masks: cell_words(rows, base),
        edges: edge_word(rows, base),
        outputs: output_words(rows, base),
    }
}

fn cell_words(rows: &[RawRow], base: usize) -> [u64; 99]
    requires { base ≤ length rows.now }
    ensures long { length result ≡ 99 }
    ensures cells { (p : ℕ) → p < 99 → IsCell rows.now base p (slice_index result p) }
{
    let mut words = [0; 99];
    for p in 0..99 {
        words[p] = cell_word(rows, base, p / 9, value_of(p % 9 / 3), value_of(p % 3));
    }
    words
}

fn output_words(rows: &[RawRow], base: usize) -> [u64; 9]
    requires { base ≤ length rows.now }
    ensures long { length result ≡ 9 }
    ensures cells { (p : ℕ) → p < 9 → IsOutputCell rows.now base p (slice_index result p) }
{
    let mut words = [0; 9];
    for p in 0..9 {
        words[p] = output_word(rows, base, value_of(p / 3), p % 3);
    }
    words
}

/// Which of 64 rows give the output of a code at a state.
fn output_word(rows: &[RawRow], base: usize, q: Value, want: usize) -> u64
    requires { base ≤ length rows.now }
    ensures { IsMask (λ i. code (output_of (row_at rows.now (base + i)).output q) == want) result }
{
    let mut word = 0;
    for i in 0..64 {
        if output_code(rows, base, i, q) == want {
            word = with_bit(word, i);
        }
    }
    word
}

/// The code of a row's output, that of x behind the last row.
fn output_code(rows: &[RawRow], base: usize, i: usize, q: Value) -> usize
    requires { base ≤ length rows.now }
    ensures { result ≡ code (output_of (row_at rows.now (base + i)).output q) }
{
    if i < rows.len() - base {
        code(rows[base + i].output.output(q))
    } else {
        code(Value::X)
    }
}

/// Which of 64 rows fit in a column that goes from a value to a value.
fn cell_word(rows: &[RawRow], base: usize, c: usize, old: Value, new: Value) -> u64
    requires { base ≤ length rows.now }
    ensures { IsMask (λ i. fits (symbol_at (row_at rows.now (base + i)) c) old new) result }
{
    let mut word = 0;
    for i in 0..64 {
        if fits_at(rows, base, i, c, old, new) {
            word = with_bit(word, i);
        }
    }
    word
}

fn fits_at(rows: &[RawRow], base: usize, i: usize, c: usize, old: Value, new: Value) -> bool
    requires { base ≤ length rows.now }
    ensures { result ≡ fits (symbol_at (row_at rows.now (base + i)) c) old new }
{
    if i < rows.len() - base {
        rows[base + i].symbol_at(c).fits(old, new)
    } else {
        false
    }
}

/// Which of 64 rows are edge rows.
fn edge_word(rows: &[RawRow], base: usize) -> u64
    requires { base ≤ length rows.now }
    ensures { IsMask (λ i. is_edge_row (row_at rows.now (base + i))) result }
{
    let mut word = 0;
    for i in 0..64 {
        if is_edge_at(rows, base, i) {
            word = with_bit(word, i);
        }
    }
    word
}

fn is_edge_at(rows: &[RawRow], base: usize, i: usize) -> bool
    requires { base ≤ length rows.now }
    ensures { result ≡ is_edge_row (row_at rows.now (base + i)) }
{
    if i < rows.len() - base {
        rows[base + i].is_edge_row()
    } else {
        false
    }
}

pub fn with_bit(word: u64, i: usize) -> u64
    requires { i < 64 }
    ensures same { bit_at result i ≡ 1 }
    ensures others { (k : ℕ) → k ≢ i → bit_at result k ≡ bit_at word k }
{
    word | 1 << i
}

pub fn code(value: Value) -> usize
    ensures code { result ≡ code value }
    ensures small { result < 3 }
{
    match value {
        Value::Zero => 0,
        Value::One => 1,
        Value::X => 2,
        Value::Z => 2,
    }
}

/// Whether two values differ; x and z do not.
pub fn differ(old: Value, new: Value) -> bool
    ensures { result ≡ differ old new }
{
    code(old) != code(new)
}

/// The value of a code.
pub fn value_of(code: usize) -> Value
    ensures { result ≡ value_of code }
{
    if code == 0 {
        Value::Zero
    } else if code == 1 {
        Value::One
    } else {
        Value::X
    }
}

/// The first rows that match, by their indices.
#[derive(Clone, Copy)]
pub struct Found {
    pub level: Option<usize>,
    pub edge: Option<usize>,
}

impl Found {
    ghost use Rattle.std.specs.Option.{option_or};

    /// The row that decides: a level row comes before an edge row.
    pub fn row(self) -> Option<usize>
        ensures { result ≡ option_or self.level self.edge }
    {
        self.level.or(self.edge)
    }
}

/// The first level row and the first edge row that match.
pub fn search(blocks: &[Block], changed: Option<Changed>, pins: &[Value], q: Value) -> Found
    requires few { length pins.now ≤ 10 }
    requires pin { IsPinBelow (length pins.now) changed }
    ensures level { FindsFirst blocks.now (level_matching changed pins.now q) result.level }
    ensures edge { FindsFirst blocks.now (edge_matching changed pins.now q) result.edge }
{
    let mut level = None;
    let mut edge = None;
    for (j, block) in blocks.iter().enumerate() {
        let word = matching(block, changed, pins, q);
        level = first_of(level, 64 * j, !block.edges & word);
        edge = first_of(edge, 64 * j, block.edges & word);
    }
    Found { level, edge }
}

/// Which of 64 rows match.
fn matching(block: &Block, changed: Option<Changed>, pins: &[Value], q: Value) -> u64
    requires few { length pins.now ≤ 10 }
    requires pin { IsPinBelow (length pins.now) changed }
    ensures { TellsRows block.now (matching changed pins.now q) result }
{
    let mut word: u64 = u64::MAX;
    for c in 0..pins.len() {
        let new = pins[c];
        word &= block.masks[c * 9 + (code(old_value(changed, c, new)) * 3 + code(new))];
    }
    word & block.masks[pins.len() * 9 + (code(q) * 3 + code(q))]
}

/// The value of a pin before the change, from its value after it.
pub fn old_value(changed: Option<Changed>, pin: usize, new: Value) -> Value
    ensures { (values : ℕ → Value) → new ≡ values pin → result ≡ before changed values pin }
{
    match changed {
        None => new,
        Some(changed) => { if pin == changed.pin { changed.old } else { new } }
    }
}

/// The row that was found below the base, else that of the word's lowest bit.
pub fn first_of(found: Option<usize>, base: usize, word: u64) -> Option<usize>
    requires { base + 64 ≤ 2 ^ 64 }
    ensures below { IfSome found (λ k. k < base) → IfSome result (λ k. k < base + 64) }
    ensures first { GoesOn base found word result }
{
    match found {
        Some(k) => Some(k),
        None => {
            if word == 0 {
                None
            } else {
                Some(base + word.trailing_zeros() as usize)
            }
        }
    }
}
