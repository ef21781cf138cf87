//! The literals of the last places, row after row of one width, kept by what moves from row to row.

ghost use Rattle.std.specs.Prelude.{◌≡◌, ◌+◌, ◌-◌, ◌*◌, ◌%◌, ◌<◌, ◌≤◌, ◌^◌, ◌++◌, ◌∷◌, [], IfOk, OnErr, OnOk, length};
ghost use Rattle.std.specs.Prelude.{replicate, slice_index_or, slice_set};
ghost use Rattle.decide_lane_nodes.specs.Literal.{no_literal};
ghost use Rattle.decide_lane_nodes.specs.Rows.{AreKept, Follows, IsMoved, IsOnward, IsTurned, last_row};

use crate::literal::Literal;
use base_lists::Memory;
use std::alloc::Global;
use std::marker::Model;
use std::mem::swap;

/// The row under way and the three whole rows before it, each with the positions at which it hasn't the literals of the
/// row before it.
#[derive(Drop)]
pub struct Kept {
    three: Vec<Literal>,
    two: Vec<Literal>,
    moved_two: Vec<u32>,
    one: Vec<Literal>,
    moved_one: Vec<u32>,
    row: Vec<Literal>,
    moved: Vec<u32>,
}

/// The literals of places: those of the row under way and of up to three whole rows before it. A row in which few
/// literals move costs those alone. Contracts see how wide a row is, and the literals in place order.
#[derive(Drop)]
pub struct LiteralRows {
    width: usize,
    /// How many whole rows there are, up to three.
    whole: usize,
    /// How many places of the row under way there are: from there on it has the literals of the row before.
    position: usize,
    kept: Kept,
}

impl Model for LiteralRows {
    ghost use Rattle.decide_lane_nodes.specs.Rows.{AreRows, RowsView, rows_of};

    ghost Value = { RowsView };

    ghost view = { λ r. rows_of r.width r.whole r.position r.kept };

    ghost invariant = { λ r. AreRows r.width r.whole r.position r.kept };
}

impl LiteralRows {
    /// None yet, of rows that are so wide. Takes 16 bytes for each position, and later 4 for each literal that moves.
    pub fn new(alloc: Global, width: usize) -> Result<LiteralRows, Memory>
        requires some { 0 < width }
        requires small { width ≤ 2 ^ 32 }
        ensures { IfOk result (λ rows. rows ≡ record { width = width; literals = [] }) }
    {
        let kept = Kept {
            three: empty_row(alloc, width)?,
            two: empty_row(alloc, width)?,
            moved_two: Vec::new(alloc),
            one: empty_row(alloc, width)?,
            moved_one: Vec::new(alloc),
            row: empty_row(alloc, width)?,
            moved: Vec::new(alloc),
        };
        Ok(LiteralRows {
            width,
            whole: 0,
            position: 0,
            kept,
        })
    }

    /// How many there are.
    pub fn len(&self) -> usize
        ensures { result ≡ length self.now.literals }
    {
        self.whole * self.width + self.position
    }

    /// How many places of the row under way are still to come, one at least.
    pub fn room(&self) -> usize
        ensures some { 0 < result }
        ensures room { result ≡ self.now.width - length self.now.literals % self.now.width }
    {
        self.width - self.position
    }

    /// The literal of a number.
    pub fn at(&self, number: usize) -> Literal
        requires { number < length self.now.literals }
        ensures { result ≡ slice_index_or self.now.literals number no_literal }
    {
        literal_in(
            &self.kept,
            self.width,
            number + (3 - self.whole) * self.width,
        )
    }

    /// Appends a literal. Where that ends a fourth row, the first row goes: gives how many went. Takes 4 bytes where it
    /// isn't the literal of its position a row before.
    pub fn push(&mut self, literal: Literal) -> Result<usize, Memory>
        ensures ok { IfOk result (IsOnward self.old self.new (literal ∷ [])) }
        ensures err { OnErr result (self.new ≡ self.old) }
    {
        put(
            &mut self.kept.row,
            &mut self.kept.moved,
            self.position,
            literal,
        )?;
        self.position += 1;
        if self.position < self.width {
            return Ok(0);
        }
        turn(&mut self.kept);
        self.position = 0;
        if self.whole < 3 {
            self.whole += 1;
            return Ok(0);
        }
        Ok(self.width)
    }

    /// Appends so many literals of the row under way, each that of its position a row before; as `push` does where that
    /// ends a fourth row.
    pub fn repeat(&mut self, many: usize) -> usize
        requires before { self.old.width ≤ length self.old.literals }
        requires room { many ≤ self.old.width - length self.old.literals % self.old.width }
        ensures { IsOnward self.old self.new (last_row self.old many) result }
    {
        self.position += many;
        if self.position < self.width {
            return 0;
        }
        turn(&mut self.kept);
        self.position = 0;
        if self.whole < 3 {
            self.whole += 1;
            return 0;
        }
        self.width
    }
}

/// A row of as many literals of the bit 0.
fn empty_row(alloc: Global, width: usize) -> Result<Vec<Literal>, Memory>
    ensures { IfOk result (λ row. row.items ≡ replicate width no_literal) }
{
    let row = vec![in alloc; Literal::new(0, false); width]?;
    Ok(row)
}

/// The literal at a position behind the first of the three rows.
fn literal_in(kept: &Kept, width: usize, position: usize) -> Literal
    requires kept { AreKept width kept.now }
    requires small { width ≤ 2 ^ 32 }
    requires position { position < 4 * width }
    ensures { result ≡ slice_index_or (kept.now.three.items ++ kept.now.two.items ++ kept.now.one.items
        ++ kept.now.row.items) position no_literal }
{
    if position < width {
        return kept.three[position];
    }
    if position < 2 * width {
        return kept.two[position - width];
    }
    if position < 3 * width {
        return kept.one[position - 2 * width];
    }
    kept.row[position - 3 * width]
}

/// Puts a literal at a position of a row, which has moved where it is another one.
fn put(
    row: &mut Vec<Literal>,
    moved: &mut Vec<u32>,
    position: usize,
    literal: Literal,
) -> Result<(), Memory>
    requires inside { position < length row.old.items }
    requires small { position < 2 ^ 32 }
    ensures row { OnOk result (row.new.items ≡ slice_set row.old.items position literal) }
    ensures moved { OnOk result (IsMoved row.old.items position literal moved.old.items moved.new.items) }
    ensures still { OnErr result (row.new.items ≡ row.old.items) }
    ensures err { OnErr result (moved.new.items ≡ moved.old.items) }
{
    if row[position].is_same(literal) {
        return Ok(());
    }
    moved.push(position as u32)?;
    row[position] = literal;
    Ok(())
}

/// The row under way is whole: it is the one before the next, which begins as a copy of it.
fn turn(kept: &mut Kept)
    requires { AreKept (length kept.old.row.items) kept.old }
    ensures { IsTurned kept.old kept.new }
{
    follow(
        kept.three.as_mut_slice(),
        kept.two.as_slice(),
        kept.moved_two.as_slice(),
    );
    follow(
        kept.two.as_mut_slice(),
        kept.one.as_slice(),
        kept.moved_one.as_slice(),
    );
    follow(
        kept.one.as_mut_slice(),
        kept.row.as_slice(),
        kept.moved.as_slice(),
    );
    swap(&mut kept.moved_two, &mut kept.moved_one);
    swap(&mut kept.moved_one, &mut kept.moved);
    kept.moved.clear();
}

/// A row becomes another one, which has other literals at some positions alone.
fn follow(to: &mut [Literal], row: &[Literal], moved: &[u32])
    requires { Follows to.old row.now moved.now }
    ensures { to.new ≡ row.now }
{
    'moved: for k in 0..moved.len() {
        let position = moved[k] as usize;
        to[position] = row[position];
    }
}
