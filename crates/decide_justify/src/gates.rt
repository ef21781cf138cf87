//! The nodes that were read, by variable.

use crate::span::Span;
use base_lists::Memory;
use sat_watches::{Variable, item_at, narrow, set_item};
use std::alloc::Global;

/// What a node reads, where its implications stand, and whether it is a source: it has bits that these don't force.
#[derive(Clone, Copy, Debug)]
pub(crate) struct Gate {
    pub(crate) arguments: Span,
    pub(crate) implications: Span,
    pub(crate) is_source: bool,
    pub(crate) is_read: bool,
}

impl Gate {
    /// One that wasn't read.
    pub(crate) fn unread() -> Gate {
        Gate {
            arguments: Span::empty(),
            implications: Span::empty(),
            is_source: false,
            is_read: false,
        }
    }
}

/// Gates by variable, and what all of them read in one list. Takes 20 bytes a variable, and 4 an argument.
#[derive(Drop)]
pub(crate) struct Gates {
    gates: Vec<Gate>,
    arguments: Vec<Variable>,
}

impl Gates {
    /// No variables.
    pub(crate) fn new(alloc: Global) -> Gates {
        Gates {
            gates: Vec::new(alloc),
            arguments: Vec::new(alloc),
        }
    }

    /// No variables any more.
    pub(crate) fn clear(&mut self) {
        self.gates.clear();
        self.arguments.clear();
    }

    /// One more variable, whose node wasn't read.
    pub(crate) fn add(&mut self) -> Result<(), Memory> {
        self.gates.push(Gate::unread())?;
        Ok(())
    }

    /// The gate of a variable.
    pub(crate) fn gate(&self, variable: Variable) -> Gate {
        item_at(&self.gates, variable.index(), Gate::unread())
    }

    /// The gate of a variable is this now.
    pub(crate) fn set(&mut self, variable: Variable, gate: Gate) {
        set_item(&mut self.gates, variable.index(), gate);
    }

    /// Argument k of a gate.
    pub(crate) fn argument(&self, gate: Gate, k: usize) -> Variable {
        item_at(
            &self.arguments,
            gate.arguments.place(k),
            Variable { number: 0 },
        )
    }

    /// How many arguments there are of all gates.
    pub(crate) fn arguments(&self) -> u32 {
        narrow(self.arguments.len())
    }

    /// One argument more, after those of all gates.
    pub(crate) fn add_argument(&mut self, argument: Variable) -> Result<(), Memory> {
        self.arguments.push(argument)?;
        Ok(())
    }
}
