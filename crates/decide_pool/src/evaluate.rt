//! The bits of a node in all lanes, from those of the nodes that it reads: as a sum of products, by its minimal
//! choices.

ghost use Rattle.decide_choices.specs.Choices.{HasTable};

use crate::entry::Entry;
use crate::pool::Pool;
use crate::pool_bits::PoolBits;
use crate::reads::{item_at, narrow, set_item};
use base_lists::Memory;
use decide_choices::Choice;
use decide_graph::{Graph, KeptNode};
use std::alloc::Global;

impl Pool {
    /// Evaluates a node, and before it what it rests on, where that isn't right of this pass; its place. None where the
    /// pool rests, or has no room for all of it: then all is forgotten.
    pub(crate) fn evaluate(
        &mut self,
        alloc: Global,
        graph: &Graph,
        node: u32,
    ) -> Result<Option<u32>, Memory> {
        if node as usize >= graph.len() || self.rests() {
            return Ok(None);
        }
        let alone = self.entries.is_empty();
        let place = self.place_of(node)?;
        if self.evaluate_at(alloc, graph, place)? {
            return Ok(Some(place));
        }
        self.forget(alloc, alone);
        Ok(None)
    }

    /// Evaluates the node of a place, and before it what it rests on; whether there is room for that.
    fn evaluate_at(&mut self, alloc: Global, graph: &Graph, place: u32) -> Result<bool, Memory> {
        self.open.clear();
        self.open.push(place)?;
        'steps: for _ in 0..u64::MAX {
            let Some(next) = self.last_open() else {
                return Ok(true);
            };
            if self.is_full() {
                return Ok(false);
            }
            self.look_at(alloc, graph, next)?;
        }
        Ok(false)
    }

    /// The place that is to be looked at next.
    fn last_open(&self) -> Option<u32> {
        match self.open.last() {
            Some(place) => Some(*place),
            None => None,
        }
    }

    /// Evaluates the node that is looked at, if what it reads is right; else that is looked at first.
    fn look_at(&mut self, alloc: Global, graph: &Graph, place: u32) -> Result<(), Memory> {
        if self.is_right(place) {
            self.open.pop();
            return Ok(());
        }
        let listed = self.listed(graph, place)?;
        if self.open_wrong(listed)? {
            return Ok(());
        }
        self.open.pop();
        let entry = self.read(alloc, graph, listed)?;
        let bits = self.evaluated(entry);
        set_item(&mut self.bits, place as usize, bits);
        let pass = self.pass;
        set_item(&mut self.entries, place as usize, Entry { pass, ..entry });
        Ok(())
    }

    /// Whether the bits of a place are right.
    fn is_right(&self, place: u32) -> bool {
        self.entry(place).pass == self.pass
    }

    /// The entry of a place, after what it reads is listed.
    fn listed(&mut self, graph: &Graph, place: u32) -> Result<Entry, Memory> {
        let old = self.entry(place);
        let number = old.node as usize;
        if old.is_listed || number >= graph.len() {
            return Ok(old);
        }
        let first = narrow(self.reads.len());
        self.list(graph.node(number).arguments)?;
        let listed = Entry {
            first,
            end: narrow(self.reads.len()),
            is_listed: true,
            ..old
        };
        set_item(&mut self.entries, place as usize, listed);
        Ok(listed)
    }

    /// The places of some nodes are listed.
    fn list(&mut self, nodes: &[u32]) -> Result<(), Memory> {
        'nodes: for node in nodes {
            let place = self.place_of(*node)?;
            self.reads.push(place)?;
        }
        Ok(())
    }

    /// The place of a node, whose entry comes in where it has none.
    fn place_of(&mut self, node: u32) -> Result<u32, Memory> {
        if let Some(place) = self.known(node) {
            return Ok(place);
        }
        let place = narrow(self.entries.len());
        self.bits.push(PoolBits::all(false))?;
        self.entries.push(Entry::unread(node))?;
        self.places.insert(node, place)?;
        Ok(place)
    }

    /// What an entry reads and isn't right is to be looked at; whether there is any.
    fn open_wrong(&mut self, entry: Entry) -> Result<bool, Memory> {
        let mut any = false;
        'reads: for k in entry.first..entry.end {
            let place = self.read_at(k);
            if !self.is_right(place) {
                self.open.push(place)?;
                any = true;
            }
        }
        Ok(any)
    }

    /// An entry with its table, and with given bits if it is a source, which come in before it is evaluated first.
    fn read(&mut self, alloc: Global, graph: &Graph, entry: Entry) -> Result<Entry, Memory> {
        let number = entry.node as usize;
        if entry.pass != 0 || number >= graph.len() {
            return Ok(entry);
        }
        self.read_table(alloc, graph.node(number), entry)
    }

    /// An entry with the table of a node, and given bits if that is a source.
    fn read_table(
        &mut self,
        alloc: Global,
        node: KeptNode<'_>,
        entry: Entry,
    ) -> Result<Entry, Memory>
        requires { HasTable node.values.now }
    {
        let table = self.tables.number_of(alloc, node.values)?;
        let given = if node.is_source() { self.give()? } else { 0 };
        Ok(Entry {
            table,
            given,
            ..entry
        })
    }

    /// Given bits for one source more; where they stand.
    fn give(&mut self) -> Result<u32, Memory> {
        if self.given.is_empty() {
            self.given.push(PoolBits::all(false))?;
        }
        let place = narrow(self.given.len());
        let bits = self.draws.draw_given();
        self.given.push(bits)?;
        Ok(place)
    }

    /// The bits of an entry, from those of what it reads.
    fn evaluated(&self, entry: Entry) -> PoolBits {
        let ones = self.forced(entry, true);
        if !entry.is_source() {
            return ones;
        }
        let zeros = self.forced(entry, false);
        let own = item_at(&self.given, entry.given as usize, PoolBits::all(false));
        ones.or(own.and(zeros, true))
    }

    /// The lanes in which the table of an entry forces a bit.
    fn forced(&self, entry: Entry, bit: bool) -> PoolBits {
        let span = self.tables.span(entry.table);
        let mut any = PoolBits::all(false);
        'choices: for place in span.start(bit)..span.end(bit) {
            any = any.or(self.chosen(entry, self.tables.choice(place)));
        }
        any
    }

    /// The lanes in which what is chosen of what an entry reads has its bits.
    fn chosen(&self, entry: Entry, choice: Choice) -> PoolBits {
        let mut all = PoolBits::all(true);
        let mut mark: u16 = 1;
        'reads: for k in entry.first..entry.end {
            if choice.care & mark != 0 {
                all = all.and(self.bits_of(self.read_at(k)), choice.bits & mark == 0);
            }
            mark = mark.wrapping_mul(2);
        }
        all
    }
}
