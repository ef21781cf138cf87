//! Guesses about the nodes of a graph.

ghost use Rattle.std.specs.Prelude.{◌≡◌, ◌↔◌, IfOk, IsTrue};
ghost use Rattle.std.specs.List.{All};
ghost use Rattle.std.specs.HashMap.{hash_map_len};
ghost use Rattle.decide_choices.specs.Choices.{HasTable};
ghost use Rattle.decide_guess.specs.Guess.{IsGuess, IsSourceIn};
ghost use Rattle.decide_justify.specs.Search.{clauses_allowed};
ghost use Rattle.decide_justify.specs.Step.{HasAtMost};

use crate::codes::{code_of, implications_of};
use crate::guess::Guess;
use base_lists::Memory;
use decide_graph::Graph;
use decide_justify::{NodeBit, Search, Step, Table};
use design_cell::Value;
use std::alloc::Global;
use std::collections::HashMap;

/// So many tables are kept, at most: then all are forgotten.
const MOST_TABLES: usize = 65_536;

/// A search on graphs, with the tables that it met, by their codes. It is to be used on one graph that grows: it keeps
/// the bits that nodes had last. Takes 5 bytes for each node of the graph, some 40 for each table and 6 for each of its
/// minimal choices, and what a search takes.
#[derive(Drop)]
pub struct Guesser {
    search: Search,
    tables: HashMap<u64, Table>,
}

impl Guesser {
    /// No table is known.
    pub fn new(alloc: Global) -> Guesser
        ensures { hash_map_len result.tables ≡ 0 }
    {
        Guesser {
            search: Search::new(alloc),
            tables: HashMap::new(alloc),
        }
    }

    /// A guess about what gives a node a bit, by a search that ends after a number of conflicts. The guess takes 4
    /// bytes for each source and 8 for each literal that it lists.
    pub fn guess(
        &mut self,
        alloc: Global,
        graph: &Graph,
        wanted: NodeBit,
        conflicts: u32,
    ) -> Result<Guess, Memory>
        ensures { IfOk result (IsGuess graph.now conflicts) }
    {
        if self.tables.len() >= MOST_TABLES {
            self.search = Search::new(alloc);
            self.tables = HashMap::new(alloc);
        }
        self.search.start(wanted, conflicts)?;
        match self.go_through(alloc, graph)? {
            Step::Filling(ones) => Ok(Guess::Filling(sources_in(alloc, graph, &ones)?)),
            Step::Log(clauses) => Ok(Guess::Log(clauses)),
            Step::Wanted(_) => Ok(Guess::Nothing),
            Step::Nothing => Ok(Guess::Nothing),
        }
    }

    /// Goes on to the end, and reads in each node that is wanted on the way.
    #[tactic(auto, using(decide_justify::proofs::StepLemmas::at_most_more))]
    fn go_through(&mut self, alloc: Global, graph: &Graph) -> Result<Step, Memory>
        ensures { IfOk result (HasAtMost (clauses_allowed self.old.search)) }
    {
        'nodes: for _ in 0..graph.len() {
            match self.search.go_on(alloc)? {
                Step::Wanted(node) => self.read(alloc, graph, node)?,
                step => return Ok(step),
            }
        }
        self.search.go_on(alloc)
    }

    /// Reads in a node. One past the last of the graph reads nothing.
    fn read(&mut self, alloc: Global, graph: &Graph, number: u32) -> Result<(), Memory>
        ensures { clauses_allowed self.new.search ≡ clauses_allowed self.old.search }
    {
        let place = number as usize;
        if place >= graph.len() {
            let table = self.search.add_table(&[])?;
            return self.search.give(number, &[], table, true);
        }
        let node = graph.node(place);
        let table = self.table_of(alloc, node.values)?;
        self.search
            .give(number, node.arguments, table, node.is_source())
    }

    /// A table of the search, which comes in where it isn't known.
    fn table_of(&mut self, alloc: Global, values: &[Value]) -> Result<Table, Memory>
        requires { HasTable values.now }
        ensures { clauses_allowed self.new.search ≡ clauses_allowed self.old.search }
    {
        let code = code_of(values);
        if let Some(table) = self.known(code) {
            return Ok(table);
        }
        let implications = implications_of(alloc, values)?;
        let table = self.search.add_table(implications.as_slice())?;
        self.tables.insert(code, table)?;
        Ok(table)
    }

    /// The table of a code, if it is known.
    fn known(&self, code: u64) -> Option<Table> {
        match self.tables.get(&code) {
            Some(table) => Some(*table),
            None => None,
        }
    }
}

/// Those of some nodes that are sources of a graph: all that a search lists are. Takes 4 bytes for each.
fn sources_in(alloc: Global, graph: &Graph, nodes: &[u32]) -> Result<Vec<u32>, Memory>
    ensures { IfOk result (λ sources. All (IsSourceIn graph.now) sources.items) }
{
    let mut sources = Vec::new(alloc);
    'nodes: for node in nodes {
        if is_source(graph, *node) {
            sources.push(*node)?;
        }
    }
    Ok(sources)
}

/// Whether a node is a source of a graph.
pub fn is_source(graph: &Graph, number: u32) -> bool
    ensures { IsTrue result ↔ IsSourceIn graph.now number }
{
    let place = number as usize;
    place < graph.len() && graph.node(place).is_source()
}
