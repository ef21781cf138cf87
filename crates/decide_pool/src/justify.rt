//! Which sources a node rests on in a lane: a walk down from it, at each node by one minimal choice that holds there.

ghost use Rattle.std.specs.Prelude.{IfOk};
ghost use Rattle.std.specs.List.{All};
ghost use Rattle.decide_guess.specs.Guess.{IsSourceIn};

use crate::entry::Entry;
use crate::pool::Pool;
use crate::pool_bits::PoolLane;
use crate::reads::set_item;
use base_lists::Memory;
use decide_choices::Choice;
use decide_graph::Graph;
use decide_guess::is_source;
use std::alloc::Global;

/// What is known of the nodes that a node reads, by marks: argument k has the mark 2^k. Those that have 1 in the lane,
/// those that cost nothing, as the walk met them or they are sources with 0, and those that are no sources.
#[derive(Clone, Copy)]
struct Marks {
    ones: u16,
    free: u16,
    inner: u16,
}

impl Marks {
    /// Whether a choice holds.
    fn satisfy(self, choice: Choice) -> bool {
        (choice.bits ^ self.ones) & choice.care == 0
    }

    /// What a choice costs: 1 for a source, 2 for another node.
    fn cost(self, choice: Choice) -> u32 {
        let open = choice.care & !self.free;
        open.count_ones()
            .saturating_add((open & self.inner).count_ones())
    }
}

impl Pool {
    /// Sources that have 1 in a lane and give the node of a place its bit there, where all others have 0. Takes 4 bytes
    /// for each.
    pub(crate) fn ones_in(
        &mut self,
        alloc: Global,
        graph: &Graph,
        place: u32,
        lane: PoolLane,
    ) -> Result<Vec<u32>, Memory>
        ensures { IfOk result (λ ones. All (IsSourceIn graph.now) ones.items) }
    {
        let mut ones = Vec::new(alloc);
        self.start_walk();
        self.meet(place)?;
        'steps: for _ in 0..self.entries.len() {
            let Some(next) = self.open.pop() else {
                return Ok(ones);
            };
            let node = self.entry(next).node;
            if self.justify(next, lane)? && is_source(graph, node) {
                ones.push(node)?;
            }
        }
        Ok(ones)
    }

    /// No node is met.
    pub(crate) fn start_walk(&mut self) {
        self.open.clear();
        self.walk = self.walk.wrapping_add(1);
    }

    /// Meets the node of a place, if it wasn't met: it is to be looked at.
    pub(crate) fn meet(&mut self, place: u32) -> Result<(), Memory> {
        let entry = self.entry(place);
        if entry.walk != self.walk {
            let walk = self.walk;
            set_item(&mut self.entries, place as usize, Entry { walk, ..entry });
            self.open.push(place)?;
        }
        Ok(())
    }

    /// Meets what gives the node of a place its bit in a lane: what a choice chooses, or else all that it reads;
    /// whether it has 1 by no choice, so by what it is given.
    fn justify(&mut self, place: u32, lane: PoolLane) -> Result<bool, Memory> {
        let entry = self.entry(place);
        let bit = self.bits_of(place).in_lane(lane);
        match self.best_choice(entry, lane, bit) {
            Some(choice) => {
                self.meet_chosen(entry, choice.care)?;
                Ok(false)
            }
            None => {
                self.meet_chosen(entry, u16::MAX)?;
                Ok(bit)
            }
        }
    }

    /// Meets what an entry reads and whose marks are chosen.
    pub(crate) fn meet_chosen(&mut self, entry: Entry, care: u16) -> Result<(), Memory> {
        let mut mark: u16 = 1;
        'reads: for k in entry.first..entry.end {
            if care & mark != 0 {
                self.meet(self.read_at(k))?;
            }
            mark = mark.wrapping_mul(2);
        }
        Ok(())
    }

    /// The cheapest choice that forces a bit of an entry and holds in a lane, if there is one.
    fn best_choice(&self, entry: Entry, lane: PoolLane, bit: bool) -> Option<Choice> {
        let span = self.tables.span(entry.table);
        let marks = self.marks(entry, lane);
        let mut best = None;
        'choices: for place in span.start(bit)..span.end(bit) {
            let choice = self.tables.choice(place);
            if marks.satisfy(choice) {
                best = Some(cheaper(marks, choice, best));
            }
        }
        best
    }

    /// What is known of what an entry reads.
    fn marks(&self, entry: Entry, lane: PoolLane) -> Marks {
        let mut marks = Marks {
            ones: 0,
            free: 0,
            inner: 0,
        };
        let mut mark: u16 = 1;
        'reads: for k in entry.first..entry.end {
            self.note(&mut marks, mark, self.read_at(k), lane);
            mark = mark.wrapping_mul(2);
        }
        marks
    }

    fn note(&self, marks: &mut Marks, mark: u16, place: u32, lane: PoolLane) {
        let entry = self.entry(place);
        let bit = self.bits_of(place).in_lane(lane);
        if bit {
            marks.ones = marks.ones | mark;
        }
        if !entry.is_source() {
            marks.inner = marks.inner | mark;
        }
        if entry.walk == self.walk || (entry.is_source() && !bit) {
            marks.free = marks.free | mark;
        }
    }
}

/// The cheaper of a choice and the best one before it.
fn cheaper(marks: Marks, choice: Choice, before: Option<Choice>) -> Choice {
    match before {
        Some(best) if marks.cost(best) <= marks.cost(choice) => best,
        _ => choice,
    }
}
