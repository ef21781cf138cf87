//! Symbols of a primitive's table (IEEE 1364-2005, clause 8).

ghost use Rattle.std.specs.Prelude.{◌≡◌};
ghost use Rattle.design_cell.specs.Symbol.{stands, rises, falls, changes, fits, is_edge, is_edge_letter, is_level};
ghost use Rattle.design_cell.specs.Symbol.{is_level_letter, output_of};
ghost use Rattle.design_cell.specs.declared.value.Value.TheVariants.{X as x_value, Z as z_value};

use crate::value::Value;

/// A symbol by its ASCII bytes: a letter, or a change from what one letter stands for to what another one stands for.
#[derive(Clone, Copy, Debug, PartialEq, Eq, Hash)]
pub enum Symbol {
    Single(u8),
    Change(u8, u8),
}

impl Symbol {
    /// Whether it fits a column that goes from a value to a value, or stays.
    #[tactic(auto, unfolding(crate::specs::Symbol::fits))]
    pub(crate) fn fits(self, old: Value, new: Value) -> bool
        ensures { result ≡ fits self old new }
    {
        match self {
            Symbol::Single(c) => {
                if is_edge_letter(c) {
                    changes(c, old, new)
                } else {
                    stands(c, new)
                }
            }
            Symbol::Change(a, b) => stands(a, old) && stands(b, new) && changes(b'*', old, new),
        }
    }

    #[tactic(auto, unfolding(crate::specs::Symbol::is_edge))]
    pub(crate) fn is_edge(self) -> bool
        ensures { result ≡ is_edge self }
    {
        match self {
            Symbol::Single(c) => is_edge_letter(c),
            Symbol::Change(_, _) => true,
        }
    }

    pub(crate) fn is_level(self) -> bool
        ensures { result ≡ is_level self }
    {
        match self {
            Symbol::Single(c) => is_level_letter(c),
            Symbol::Change(_, _) => false,
        }
    }

    /// The value that it gives as an output.
    pub(crate) fn output(self, q: Value) -> Value
        ensures { result ≡ output_of self q }
    {
        match self {
            Symbol::Single(b'-') => q.read(),
            Symbol::Single(b'0') => Value::Zero,
            Symbol::Single(b'1') => Value::One,
            _ => Value::X,
        }
    }
}

fn stands(c: u8, value: Value) -> bool
    ensures { result ≡ stands c value }
{
    match value {
        Value::Zero => c == b'0' || c == b'?' || c == b'b' || c == b'B',
        Value::One => c == b'1' || c == b'?' || c == b'b' || c == b'B',
        Value::X => c == b'x' || c == b'X' || c == b'?',
        Value::Z => c == b'x' || c == b'X' || c == b'?',
    }
}

/// Whether an edge letter stands for a change.
fn changes(c: u8, old: Value, new: Value) -> bool
    ensures { result ≡ changes c old new }
{
    match old {
        Value::Zero => match new {
            Value::Zero => false,
            Value::One => rises(c) || c == b'r' || c == b'R',
            Value::X => rises(c),
            Value::Z => rises(c),
        },
        Value::One => match new {
            Value::Zero => falls(c) || c == b'f' || c == b'F',
            Value::One => false,
            Value::X => falls(c),
            Value::Z => falls(c),
        },
        Value::X => changes_unknown(c, new),
        Value::Z => changes_unknown(c, new),
    }
}

fn changes_unknown(c: u8, new: Value) -> bool
    ensures x { result ≡ changes c x_value new }
    ensures z { result ≡ changes c z_value new }
{
    match new {
        Value::Zero => falls(c),
        Value::One => rises(c),
        Value::X => false,
        Value::Z => false,
    }
}

fn rises(c: u8) -> bool
    ensures { result ≡ rises c }
{
    c == b'*' || c == b'p' || c == b'P'
}

fn falls(c: u8) -> bool
    ensures { result ≡ falls c }
{
    c == b'*' || c == b'n' || c == b'N'
}

pub fn is_level_letter(c: u8) -> bool
    ensures { result ≡ is_level_letter c }
{
    c == b'0' || c == b'1' || c == b'x' || c == b'X' || c == b'?' || c == b'b' || c == b'B'
}

pub fn is_edge_letter(c: u8) -> bool
    ensures { result ≡ is_edge_letter c }
{
    c == b'*'
        || c == b'p'
        || c == b'P'
        || c == b'n'
        || c == b'N'
        || c == b'r'
        || c == b'R'
        || c == b'f'
        || c == b'F'
}
