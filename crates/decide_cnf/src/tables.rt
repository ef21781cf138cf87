//! The clauses of a node with a table.

ghost use Rattle.std.specs.Prelude.{◌≡◌, ◌<◌, ◌≤◌, ◌++◌, IfOk, OnOk, length};
ghost use Rattle.std.specs.List.{All};
ghost use Rattle.decide_choices.specs.Choices.{IsAmong};
ghost use Rattle.decide_cnf.specs.Clauses.{IsTableClause, node_says};
ghost use Rattle.decide_cnf.specs.Growth.{IsBitClause, IsChoiceClause, IsGrown, IsTableOf, clause_literals, denied_at};

use crate::clause::{Literals, merged};
use crate::lists::Lists;
use crate::literals::turned;
use base_lists::Memory;
use decide_choices::{Choice, minimal_choices};
use design_cell::Value;
use smallvec::SmallVec;
use std::alloc::Global;

/// A node with a table, among the literals of nodes.
#[derive(Clone, Copy, Debug)]
pub struct Table<'t> {
    pub literals: &'t [i32],
    pub arguments: &'t [u32],
    pub values: &'t [Value],
    pub position: usize,
}

/// Adds the clauses of all minimal choices of bits for the arguments of a node.
pub fn add_table(alloc: Global, lists: &mut Lists, table: &Table<'_>) -> Result<(), Memory>
    requires { IsTableOf table.now.literals.now table.now.arguments.now table.now.values.now table.now.position }
    ensures { OnOk result
        (IsGrown
        (IsTableClause table.now.literals.now table.now.arguments.now table.now.values.now table.now.position)
        lists.old lists.new) }
{
    add_bit(alloc, lists, table, false)?;
    add_bit(alloc, lists, table, true)
}

/// Adds those that force one bit.
fn add_bit(alloc: Global, lists: &mut Lists, table: &Table<'_>, bit: bool) -> Result<(), Memory>
    requires { IsTableOf table.now.literals.now table.now.arguments.now table.now.values.now table.now.position }
    ensures { OnOk result
        (IsGrown
        (IsBitClause table.now.literals.now table.now.arguments.now table.now.values.now table.now.position bit)
        lists.old lists.new) }
{
    let choices = minimal_choices(alloc, table.values, bit)?;
    'choices: for choice in &choices {
        add_choice(alloc, lists, table, bit, *choice)?;
    }
    Ok(())
}

/// Adds the clause of one choice, unless it is a tautology.
fn add_choice(
    alloc: Global,
    lists: &mut Lists,
    table: &Table<'_>,
    bit: bool,
    choice: Choice,
) -> Result<(), Memory>
    requires table { IsTableOf table.now.literals.now table.now.arguments.now table.now.values.now table.now.position }
    requires among { IsAmong (length table.now.arguments.now) choice }
    ensures { OnOk result
        (IsGrown (IsChoiceClause table.now.literals.now table.now.arguments.now table.now.position bit choice)
        lists.old lists.new) }
{
    let wanted = literals_of(alloc, table, bit, choice)?;
    match merged(alloc, wanted.as_slice())? {
        Some(list) => lists.push(list),
        None => Ok(()),
    }
}

/// The literals of 'not that choice, or that bit'.
fn literals_of(
    alloc: Global,
    table: &Table<'_>,
    bit: bool,
    choice: Choice,
) -> Result<Literals, Memory>
    requires { IsTableOf table.now.literals.now table.now.arguments.now table.now.values.now table.now.position }
    ensures { IfOk result (λ wanted.
        wanted.items
        ≡ clause_literals (node_says table.now.literals.now table.now.arguments.now table.now.position)
        (length table.now.arguments.now) choice bit) }
{
    let count = table.arguments.len();
    let mut wanted = SmallVec::with_capacity(alloc, count + 1)?;
    'arguments: for argument in 0..count {
        add_denied(&mut wanted, table, choice, argument)?;
    }
    wanted.push(turned(table.literals[table.position], bit))?;
    Ok(wanted)
}

/// Adds the literal that denies the bit of an argument, if that is chosen.
fn add_denied(
    wanted: &mut Literals,
    table: &Table<'_>,
    choice: Choice,
    argument: usize,
) -> Result<(), Memory>
    requires table { IsTableOf table.now.literals.now table.now.arguments.now table.now.values.now table.now.position }
    requires argument { argument < length table.now.arguments.now }
    ensures { OnOk result
        (wanted.new.items
        ≡ wanted.old.items
        ++ denied_at (node_says table.now.literals.now table.now.arguments.now table.now.position) choice argument) }
{
    if choice.has(argument) {
        let node = table.arguments[argument];
        wanted.push(turned(table.literals[node as usize], !choice.bit(argument)))?;
    }
    Ok(())
}
