//! The minimal choices of tables, by the tables' codes.

ghost use Rattle.decide_choices.specs.Choices.{HasTable};

use crate::reads::{item_at, narrow};
use base_lists::Memory;
use decide_choices::{Choice, minimal_choices};
use design_cell::Value;
use std::alloc::Global;
use std::collections::HashMap;

/// Where the choices of a table stand: those that force 1 from the start on, and from the middle on to the end those
/// that force 0.
#[derive(Clone, Copy, Debug)]
pub(crate) struct Span {
    start: u32,
    middle: u32,
    end: u32,
}

impl Span {
    fn empty() -> Span {
        Span {
            start: 0,
            middle: 0,
            end: 0,
        }
    }

    /// Where those that force a bit begin.
    pub(crate) fn start(self, bit: bool) -> usize {
        if bit {
            self.start as usize
        } else {
            self.middle as usize
        }
    }

    /// Where they end.
    pub(crate) fn end(self, bit: bool) -> usize {
        if bit {
            self.middle as usize
        } else {
            self.end as usize
        }
    }
}

/// Tables by number. If two tables have the same code, the first one is kept. Takes some 40 bytes a table, and 4 a
/// choice.
#[derive(Drop)]
pub(crate) struct Tables {
    numbers: HashMap<u64, u32>,
    spans: Vec<Span>,
    choices: Vec<Choice>,
}

impl Tables {
    /// No tables.
    pub(crate) fn new(alloc: Global) -> Tables {
        Tables {
            numbers: HashMap::new(alloc),
            spans: Vec::new(alloc),
            choices: Vec::new(alloc),
        }
    }

    /// How many there are.
    pub(crate) fn len(&self) -> usize {
        self.spans.len()
    }

    /// The number of a table, which comes in where it isn't known.
    pub(crate) fn number_of(&mut self, alloc: Global, values: &[Value]) -> Result<u32, Memory>
        requires { HasTable values.now }
    {
        let code = code_of(values);
        if let Some(number) = self.known(code) {
            return Ok(number);
        }
        let number = narrow(self.spans.len());
        let start = narrow(self.choices.len());
        let middle = self.add(alloc, values, true)?;
        let end = self.add(alloc, values, false)?;
        self.spans.push(Span { start, middle, end })?;
        self.numbers.insert(code, number)?;
        Ok(number)
    }

    /// The number of the table of a code, if it is known.
    fn known(&self, code: u64) -> Option<u32> {
        match self.numbers.get(&code) {
            Some(number) => Some(*number),
            None => None,
        }
    }

    /// The choices that force a bit come in; where they end.
    fn add(&mut self, alloc: Global, values: &[Value], bit: bool) -> Result<u32, Memory>
        requires { HasTable values.now }
    {
        let choices = minimal_choices(alloc, values, bit)?;
        self.choices.extend_from_slice(choices.as_slice())?;
        Ok(narrow(self.choices.len()))
    }

    /// Where the choices of a table stand.
    pub(crate) fn span(&self, number: u32) -> Span {
        item_at(&self.spans, number as usize, Span::empty())
    }

    /// The choice of a place.
    pub(crate) fn choice(&self, place: usize) -> Choice {
        item_at(&self.choices, place, Choice { care: 0, bits: 0 })
    }
}

/// A number that equal tables share, and others hardly ever.
fn code_of(values: &[Value]) -> u64 {
    let mut code = mixed(values.len() as u64);
    'values: for value in values {
        code = mixed(code ^ number_of(*value));
    }
    code
}

fn number_of(value: Value) -> u64 {
    match value {
        Value::Zero => 0,
        Value::One => 1,
        Value::X => 2,
        Value::Z => 3,
    }
}

/// A number mixed well (the finisher of splitmix64).
fn mixed(number: u64) -> u64 {
    let a = number.wrapping_add(0x9e37_79b9_7f4a_7c15);
    let b = (a ^ (a >> 30)).wrapping_mul(0xbf58_476d_1ce4_e5b9);
    let c = (b ^ (b >> 27)).wrapping_mul(0x94d0_49bb_1331_11eb);
    c ^ (c >> 31)
}
