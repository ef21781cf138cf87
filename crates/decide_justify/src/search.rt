//! A search: which bits give a node a bit.

ghost use Rattle.std.specs.Prelude.{◌≡◌, ◌≤◌, IfOk, IfSome, OnOk, length};
ghost use Rattle.decide_justify.specs.Search.{TablesFit, clauses_allowed, implications_in};
ghost use Rattle.decide_justify.specs.Step.{HasAtMost};

use crate::implication::Implication;
use crate::node_bit::NodeBit;
use crate::propagate::Propagated;
use crate::reason::Reason;
use crate::restarts::Restarts;
use crate::solver::Solver;
use crate::step::Step;
use crate::tables::Table;
use base_lists::Memory;
use std::alloc::Global;

/// A search. What it finds isn't promised. Tables that were added and the bits that nodes had last stay from one search
/// to the next.
#[derive(Drop)]
pub struct Search {
    solver: Solver,
    /// The numbers of the clauses of the log: of those that were learned and that no table says. Takes 4 bytes for
    /// each.
    log: Vec<u32>,
    /// So many conflicts are left.
    left: u32,
    restarts: Restarts,
}

impl Search {
    /// No search.
    pub fn new(alloc: Global) -> Search
        ensures { clauses_allowed result ≡ 0 }
    {
        Search {
            solver: Solver::new(alloc),
            log: Vec::new(alloc),
            left: 0,
            restarts: Restarts::new(),
        }
    }

    /// A table comes in, by the minimal choices of bits for a node's arguments and the bits that they force: of at most
    /// 16 arguments. Takes 8 bytes, and 6 for each implication.
    pub fn add_table(&mut self, implications: &[Implication]) -> Result<Table, Memory>
        ensures ok { TablesFit self.new → IfOk result (λ table. implications_in self.new table ≡ implications.now) }
        ensures allowed { clauses_allowed self.new ≡ clauses_allowed self.old }
    {
        self.solver.tables.add(implications)
    }

    /// Begins a search for what gives a node a bit, which ends after a number of conflicts. Any earlier one is
    /// forgotten.
    pub fn start(&mut self, wanted: NodeBit, conflicts: u32) -> Result<(), Memory>
        ensures { clauses_allowed self.new ≡ conflicts }
    {
        self.log.clear();
        self.left = conflicts;
        self.restarts = Restarts::new();
        self.solver.start(wanted)
    }

    /// A node that was wanted comes in: what it reads, its table, and whether its table has x, so that it is a source.
    /// Takes 16 bytes for each node that it reads, and some 100 for each of these that the search hasn't met.
    pub fn give(
        &mut self,
        node: u32,
        arguments: &[u32],
        table: Table,
        has_x: bool,
    ) -> Result<(), Memory>
        ensures { clauses_allowed self.new ≡ clauses_allowed self.old }
    {
        self.solver.give(node, arguments, table, has_x)
    }

    /// Goes on until a node is wanted or the search has ended. Takes 4 bytes for each source with 1, or 8 for each
    /// literal of the log.
    #[tactic(auto, using(crate::proofs::StepLemmas::at_most_more))]
    pub fn go_on(&mut self, alloc: Global) -> Result<Step, Memory>
        ensures ends { IfOk result (HasAtMost (clauses_allowed self.old)) }
        ensures allowed { OnOk result (clauses_allowed self.new ≤ clauses_allowed self.old) }
    {
        'steps: for _ in 0..u64::MAX {
            if let Some(step) = self.step(alloc)? {
                return Ok(step);
            }
        }
        Ok(Step::Nothing)
    }

    /// Propagates, and then learns from a conflict or takes a decision.
    fn step(&mut self, alloc: Global) -> Result<Option<Step>, Memory>
        ensures ends { IfOk result (λ found. IfSome found (HasAtMost (clauses_allowed self.old))) }
        ensures allowed { OnOk result (clauses_allowed self.new ≤ clauses_allowed self.old) }
    {
        match self.solver.propagate()? {
            Propagated::Wanted(node) => Ok(Some(Step::Wanted(node))),
            Propagated::Conflict(reason) => self.take_conflict(alloc, reason),
            Propagated::All => {
                if self.solver.decide()? {
                    return Ok(None);
                }
                let ones = self.solver.ones(alloc)?;
                Ok(Some(Step::Filling(ones)))
            }
        }
    }

    /// Learns from a conflict, and goes back; unless it is one without a decision, or the last that is allowed.
    fn take_conflict(&mut self, alloc: Global, conflict: Reason) -> Result<Option<Step>, Memory>
        ensures ends { IfOk result (λ found. IfSome found (HasAtMost (clauses_allowed self.old))) }
        ensures allowed { OnOk result (clauses_allowed self.new ≤ clauses_allowed self.old) }
    {
        if self.solver.trail.level().is_base() {
            let log = self.clauses(alloc)?;
            return Ok(Some(Step::Log(log)));
        }
        if self.left <= 1 {
            return Ok(Some(Step::Nothing));
        }
        let Some(learned) = self.solver.learn(conflict)? else {
            return Ok(Some(Step::Nothing));
        };
        self.left = self.left - 1;
        if learned.is_new {
            self.log.push(learned.clause)?;
        }
        if self.restarts.is_due() {
            self.solver.restart();
        }
        Ok(None)
    }

    /// The clauses of the log, in the order in which they were learned.
    fn clauses(&self, alloc: Global) -> Result<Vec<Vec<NodeBit>>, Memory>
        ensures { IfOk result (λ clauses. length clauses.items ≡ length self.now.log.items) }
    {
        let mut clauses = Vec::new(alloc);
        'clauses: for k in 0..self.log.len() {
            let clause = self.solver.clause(alloc, self.log[k])?;
            clauses.push(clause)?;
        }
        Ok(clauses)
    }
}
