//! The tables over one list of sources.

ghost use Rattle.std.specs.Prelude.{◌≡◌, ◌<◌, ◌≤◌, [], IfOk, OnOk, length};
ghost use Rattle.std.specs.List.{AllByRecursion};
ghost use Rattle.decide_tables.specs.Other.{IsCompared};
ghost use Rattle.decide_tables.specs.Tables.{AreTablesOf, AreTablesOfAny, KeepsRight};

use crate::evaluate::node_blocks;
use crate::kept::KeptTables;
use crate::missing::missing_nodes;
use crate::other::{Compared, compare_blocks};
use base_lists::Memory;
use decide_graph::Graph;
use decide_pair::number_blocks;
use design_circuit::Place;
use std::alloc::Global;
use std::marker::Model;
use std::mem;

/// How many blocks may be made for a question at most, and how many each question earns: so questions that come to
/// other sources again and again cost no more than that on the whole.
const MOST_MADE: usize = 262_144;

const EARNED: usize = 8192;

/// The tables of nodes over a list of at most 16 sources, in two ages: where the young ones are many, the aged ones go,
/// and the young ones are aged; a table that is used is young. Takes 40 megabytes for each age at most, and 8 bytes for
/// each node of the graph.
#[derive(Drop)]
pub struct SourceTables {
    list: Vec<Place>,
    young: KeptTables,
    aged: KeptTables,
    credit: usize,
}

impl Model for SourceTables {
    ghost use Rattle.std.specs.Prelude.{◌≤◌, length};
    ghost use Rattle.decide_tables.specs.Tables.{TablesView};

    ghost Value = { TablesView };

    ghost view = { λ tables. record { list = tables.list.items; young = tables.young; aged = tables.aged } };

    ghost invariant = { λ tables. length tables.list.items ≤ 16 };
}

impl SourceTables {
    /// No list, and no tables.
    pub fn new(alloc: Global) -> SourceTables
        ensures list { result.list ≡ [] }
        ensures right { AreTablesOfAny result }
    {
        SourceTables {
            list: Vec::new(alloc),
            young: KeptTables::new(alloc),
            aged: KeptTables::new(alloc),
            credit: MOST_MADE,
        }
    }

    /// Another list: all tables go.
    pub fn set_list(&mut self, list: Vec<Place>)
        requires { length list.items ≤ 16 }
        ensures list { self.new.list ≡ list.items }
        ensures right { AreTablesOfAny self.new }
    {
        self.list = list;
        self.young.clear();
        self.aged.clear();
    }

    /// A filling of places of the list under which a node has another bit than under the empty one, one that lists as
    /// few as any; or the bit that it has under every one; or nothing where questions haven't earned its table.
    pub fn compare(&mut self, alloc: Global, graph: &Graph, node: usize) -> Result<Compared, Memory>
        requires node { node < length graph.now }
        requires right { AreTablesOf graph.now self.old }
        ensures right { OnOk result (AreTablesOf graph.now self.new) }
        ensures list { OnOk result (self.new.list ≡ self.old.list) }
        ensures shown { IfOk result (IsCompared graph.now self.old.list node) }
    {
        self.make_room();
        self.make_missing(alloc, graph, node)?;
        self.found(alloc, graph, node)
    }

    /// Where the young tables are many, the aged ones go.
    fn make_room(&mut self)
        ensures { KeepsRight self.old self.new }
    {
        if self.young.is_full() {
            mem::swap(&mut self.young, &mut self.aged);
            self.young.clear();
        }
    }

    /// Makes what is missing so that a node has a young table, if questions have earned so much.
    fn make_missing(&mut self, alloc: Global, graph: &Graph, node: usize) -> Result<(), Memory>
        requires node { node < length graph.now }
        requires right { AreTablesOf graph.now self.old }
        ensures right { OnOk result (AreTablesOf graph.now self.new) }
        ensures list { OnOk result (self.new.list ≡ self.old.list) }
    {
        let count = number_blocks(self.list.len());
        let most = earn(&mut self.credit) / count;
        match missing_nodes(alloc, graph, &self.young, &self.aged, node, most)? {
            Some(nodes) => {
                spend(&mut self.credit, nodes.len().saturating_mul(count));
                self.make_all(alloc, graph, nodes)
            }
            None => {
                spend(&mut self.credit, most);
                Ok(())
            }
        }
    }

    /// Some nodes get young tables, from the last one on.
    fn make_all(&mut self, alloc: Global, graph: &Graph, nodes: Vec<usize>) -> Result<(), Memory>
        requires nodes { AllByRecursion (λ node. node < length graph.now) nodes.items }
        requires right { AreTablesOf graph.now self.old }
        ensures right { OnOk result (AreTablesOf graph.now self.new) }
        ensures list { OnOk result (self.new.list ≡ self.old.list) }
    {
        let mut rest = nodes;
        'rest: while let Some(node) = rest.pop() {
            self.make(alloc, graph, node)?;
        }
        Ok(())
    }

    /// A node gets a young table: its aged one, or a new one, if those of the nodes that it reads are young.
    fn make(&mut self, alloc: Global, graph: &Graph, node: usize) -> Result<(), Memory>
        requires node { node < length graph.now }
        requires right { AreTablesOf graph.now self.old }
        ensures right { OnOk result (AreTablesOf graph.now self.new) }
        ensures list { OnOk result (self.new.list ≡ self.old.list) }
    {
        match self.aged.find(node) {
            Some(blocks) => self.young.push(node, blocks),
            None => self.make_new(alloc, graph, node),
        }
    }

    fn make_new(&mut self, alloc: Global, graph: &Graph, node: usize) -> Result<(), Memory>
        requires node { node < length graph.now }
        requires right { AreTablesOf graph.now self.old }
        ensures right { OnOk result (AreTablesOf graph.now self.new) }
        ensures list { OnOk result (self.new.list ≡ self.old.list) }
    {
        match node_blocks(alloc, graph, self.list.as_slice(), &self.young, node)? {
            Some(blocks) => self.young.push(node, blocks.as_slice()),
            None => Ok(()),
        }
    }

    /// What the young table of a node shows.
    fn found(&self, alloc: Global, graph: &Graph, node: usize) -> Result<Compared, Memory>
        requires { AreTablesOf graph.now self.now }
        ensures { IfOk result (IsCompared graph.now self.now.list node) }
    {
        match self.young.find(node) {
            Some(blocks) => compare_blocks(alloc, self.list.as_slice(), blocks),
            None => Ok(Compared::Nothing),
        }
    }
}

/// A question comes. How many blocks may then be made.
fn earn(credit: &mut usize) -> usize {
    *credit = credit.saturating_add(EARNED).min(MOST_MADE);
    *credit
}

/// So many are made, or so many nodes were looked at for nothing.
fn spend(credit: &mut usize, count: usize) {
    *credit = credit.saturating_sub(count);
}
