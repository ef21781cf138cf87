//! What one search knows: the nodes that it met, the bits that they have, and the clauses that it learned.

use crate::clauses::Clauses;
use crate::gates::{Gate, Gates};
use crate::implication::Implication;
use crate::node_bit::NodeBit;
use crate::phases::Phases;
use crate::readers::Readers;
use crate::reason::Reason;
use crate::scores::Scores;
use crate::span::Span;
use crate::tables::{Table, Tables};
use crate::trail::Trail;
use crate::variables::Variables;
use base_lists::Memory;
use sat_watches::{Literal, Seen, Variable, Watches, narrow};
use std::alloc::Global;

/// The state of a search. Tables, and the bits that nodes had last, stay from one search to the next.
#[derive(Drop)]
pub(crate) struct Solver {
    pub(crate) tables: Tables,
    pub(crate) phases: Phases,
    pub(crate) variables: Variables,
    pub(crate) gates: Gates,
    pub(crate) readers: Readers,
    pub(crate) trail: Trail,
    pub(crate) clauses: Clauses,
    pub(crate) watches: Watches,
    pub(crate) scores: Scores,
    pub(crate) seen: Seen,
}

impl Solver {
    /// No search.
    pub(crate) fn new(alloc: Global) -> Solver {
        Solver {
            tables: Tables::new(alloc),
            phases: Phases::new(alloc),
            variables: Variables::new(alloc),
            gates: Gates::new(alloc),
            readers: Readers::new(alloc),
            trail: Trail::new(alloc),
            clauses: Clauses::new(alloc),
            watches: Watches::new(alloc),
            scores: Scores::new(alloc),
            seen: Seen::new(alloc),
        }
    }

    /// Begins a search for what gives a node a bit. Any earlier one is forgotten.
    pub(crate) fn start(&mut self, wanted: NodeBit) -> Result<(), Memory> {
        self.forget();
        let variable = self.meet(wanted.node)?;
        self.trail
            .assign(Literal::new(variable, wanted.bit), Reason::Decision)?;
        Ok(())
    }

    fn forget(&mut self) {
        self.variables.clear();
        self.gates.clear();
        self.readers.clear();
        self.trail.clear();
        self.clauses.clear();
        self.watches.clear();
        self.scores.clear();
        self.seen.clear();
    }

    /// A node comes in: what it reads, its table, and whether it is a source.
    pub(crate) fn give(
        &mut self,
        node: u32,
        arguments: &[u32],
        table: Table,
        is_source: bool,
    ) -> Result<(), Memory> {
        let gate = self.meet(node)?;
        let arguments_span = Span {
            start: self.gates.arguments(),
            count: narrow(arguments.len()),
        };
        self.read_arguments(gate, arguments)?;
        let read = Gate {
            arguments: arguments_span,
            implications: self.tables.span(table),
            is_source,
            is_read: true,
        };
        self.gates.set(gate, read);
        Ok(())
    }

    fn read_arguments(&mut self, gate: Variable, arguments: &[u32]) -> Result<(), Memory> {
        'arguments: for argument in arguments {
            let variable = self.meet(*argument)?;
            self.gates.add_argument(variable)?;
            self.readers.note(variable, gate)?;
        }
        Ok(())
    }

    /// The variable of a node, which it gets here if it has none.
    fn meet(&mut self, node: u32) -> Result<Variable, Memory> {
        match self.variables.find(node) {
            Some(variable) => Ok(variable),
            None => self.add(node),
        }
    }

    fn add(&mut self, node: u32) -> Result<Variable, Memory> {
        self.phases.meet(node)?;
        self.gates.add()?;
        self.readers.add()?;
        self.trail.add()?;
        self.watches.add()?;
        self.scores.add()?;
        self.seen.add()?;
        self.variables.add(node)
    }

    /// The sources that have 1. Takes 4 bytes for each.
    pub(crate) fn ones(&self, alloc: Global) -> Result<Vec<u32>, Memory> {
        let mut ones = Vec::new(alloc);
        'places: for place in 0..self.trail.len() {
            let literal = self.trail.literal(place);
            if literal.bit() && self.gates.gate(literal.variable()).is_source {
                ones.push(self.variables.node(literal.variable()))?;
            }
        }
        Ok(ones)
    }

    /// The clause of a number: one of these nodes has this bit. Takes 8 bytes for each.
    pub(crate) fn clause(&self, alloc: Global, number: u32) -> Result<Vec<NodeBit>, Memory> {
        let mut clause = Vec::new(alloc);
        'literals: for place in 0..self.clauses.span(number).len() {
            clause.push(self.node_bit(self.clauses.literal(number, place)))?;
        }
        Ok(clause)
    }

    fn node_bit(&self, literal: Literal) -> NodeBit {
        NodeBit {
            node: self.variables.node(literal.variable()),
            bit: literal.bit(),
        }
    }
}
