//! The bits that variables have, in the order in which they got them, by levels of decisions.

use crate::reason::Reason;
use base_lists::Memory;
use sat_watches::{Literal, Variable, item_at, narrow, set_item};
use std::alloc::Global;

/// How many decisions came before. Bits of the base level need none.
#[derive(Clone, Copy, Debug)]
pub(crate) struct Level {
    pub(crate) decisions: u32,
}

impl Level {
    /// No decision.
    pub(crate) fn base() -> Level {
        Level { decisions: 0 }
    }

    /// Whether it is the base level.
    pub(crate) fn is_base(self) -> bool {
        self.decisions == 0
    }

    /// Whether more decisions came before.
    pub(crate) fn is_above(self, other: Level) -> bool {
        self.decisions > other.decisions
    }
}

/// What a variable has.
#[derive(Clone, Copy, Debug)]
pub(crate) struct Assigned {
    pub(crate) value: Option<bool>,
    pub(crate) level: Level,
    pub(crate) reason: Reason,
}

impl Assigned {
    /// No bit.
    pub(crate) fn nothing() -> Assigned {
        Assigned {
            value: None,
            level: Level::base(),
            reason: Reason::Decision,
        }
    }
}

/// Where a level begins on the trail, and where the search for a decision stood.
#[derive(Clone, Copy, Debug)]
pub(crate) struct Start {
    len: u32,
    cursor: u32,
}

/// The trail: literals in order, of which the first ones are read. All before the cursor are justified, or can't be.
/// Takes 28 bytes a variable, and 8 a level.
#[derive(Drop)]
pub(crate) struct Trail {
    assigned: Vec<Assigned>,
    literals: Vec<Literal>,
    starts: Vec<Start>,
    read: usize,
    cursor: usize,
}

impl Trail {
    /// No variables.
    pub(crate) fn new(alloc: Global) -> Trail {
        Trail {
            assigned: Vec::new(alloc),
            literals: Vec::new(alloc),
            starts: Vec::new(alloc),
            read: 0,
            cursor: 0,
        }
    }

    /// No variables any more.
    pub(crate) fn clear(&mut self) {
        self.assigned.clear();
        self.literals.clear();
        self.starts.clear();
        self.read = 0;
        self.cursor = 0;
    }

    /// One more variable, without a bit.
    pub(crate) fn add(&mut self) -> Result<(), Memory> {
        self.assigned.push(Assigned::nothing())?;
        Ok(())
    }

    /// What a variable has.
    pub(crate) fn assigned(&self, variable: Variable) -> Assigned {
        item_at(&self.assigned, variable.index(), Assigned::nothing())
    }

    /// The bit of a variable, if it has one.
    pub(crate) fn value(&self, variable: Variable) -> Option<bool> {
        self.assigned(variable).value
    }

    /// Whether the variable has the bit.
    pub(crate) fn is_true(&self, literal: Literal) -> bool {
        match self.value(literal.variable()) {
            None => false,
            Some(bit) => bit == literal.bit(),
        }
    }

    /// Whether the variable has the other bit.
    pub(crate) fn is_false(&self, literal: Literal) -> bool {
        self.is_true(literal.turned())
    }

    /// Makes a literal true, unless it is; whether it wasn't false.
    pub(crate) fn assign(&mut self, literal: Literal, reason: Reason) -> Result<bool, Memory> {
        match self.value(literal.variable()) {
            Some(bit) => Ok(bit == literal.bit()),
            None => {
                self.append(literal, reason)?;
                Ok(true)
            }
        }
    }

    fn append(&mut self, literal: Literal, reason: Reason) -> Result<(), Memory> {
        let assigned = Assigned {
            value: Some(literal.bit()),
            level: self.level(),
            reason,
        };
        self.literals.push(literal)?;
        set_item(&mut self.assigned, literal.variable().index(), assigned);
        Ok(())
    }

    /// The level of what comes next.
    pub(crate) fn level(&self) -> Level {
        Level {
            decisions: narrow(self.starts.len()),
        }
    }

    /// How many literals there are.
    pub(crate) fn len(&self) -> usize {
        self.literals.len()
    }

    /// The literal of a place on the trail.
    pub(crate) fn literal(&self, place: usize) -> Literal {
        let other = Literal::none();
        item_at(&self.literals, place, other)
    }

    /// The first literal that isn't read.
    pub(crate) fn unread(&self) -> Option<Literal> {
        if self.read < self.literals.len() {
            Some(self.literal(self.read))
        } else {
            None
        }
    }

    /// One more is read.
    pub(crate) fn advance(&mut self) {
        self.read = self.read.saturating_add(1);
    }

    /// Where the search for a decision stands.
    pub(crate) fn cursor(&self) -> usize {
        self.cursor
    }

    /// It stands there now.
    pub(crate) fn set_cursor(&mut self, place: usize) {
        self.cursor = place;
    }

    /// A new level begins.
    pub(crate) fn open_level(&mut self) -> Result<(), Memory> {
        let start = Start {
            len: narrow(self.literals.len()),
            cursor: narrow(self.cursor),
        };
        self.starts.push(start)?;
        Ok(())
    }

    /// Where the level after one begins, if there is one: to go back to that level, what comes from there on goes.
    /// Takes no memory.
    pub(crate) fn end_of(&self, level: Level) -> Option<Start> {
        let place = level.decisions as usize;
        if place < self.starts.len() {
            Some(self.starts[place])
        } else {
            None
        }
    }

    /// The last literal goes, if it is past the start of a level.
    pub(crate) fn pop_past(&mut self, start: Start) -> Option<Literal> {
        if self.literals.len() <= start.len as usize {
            return None;
        }
        let literal = self.literals.pop()?;
        set_item(
            &mut self.assigned,
            literal.variable().index(),
            Assigned::nothing(),
        );
        Some(literal)
    }

    /// Only the levels up to one stay, whose literals are those that are left.
    pub(crate) fn close_levels(&mut self, level: Level, start: Start) {
        self.starts.truncate(level.decisions as usize);
        self.read = self.literals.len();
        self.cursor = start.cursor as usize;
    }
}
