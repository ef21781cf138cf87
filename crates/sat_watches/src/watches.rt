//! Watches: each clause of two literals or more watches its first two, in linked lists by literal.

ghost use Rattle.std.specs.Prelude.{◌≡◌, ◌/◌, ◌%◌, ◌-◌, length, option_map, OnOk, OnErr};
ghost use Rattle.sat_watches.specs.Watches as spec;

use crate::literal::Literal;
use crate::reads::{item_at, set_item};
use base_lists::Memory;
use std::alloc::Global;
use std::marker::Model;

/// A watch by number: twice that of its clause, and 1 more for the second literal.
#[derive(Clone, Copy, Debug)]
pub struct Watch {
    number: u32,
}

impl Watch {
    /// Its clause.
    pub fn clause(self) -> u32
        ensures { result ≡ self.number / 2 }
    {
        self.number / 2
    }

    /// The place in the clause of the literal that is watched.
    pub fn side(self) -> usize
        ensures { result ≡ self.number % 2 }
    {
        (self.number % 2) as usize
    }

    /// That of the other one.
    pub fn other_side(self) -> usize
        ensures { result ≡ 1 - self.number % 2 }
    {
        if self.side() == 0 { 1 } else { 0 }
    }
}

/// The next watch of the literal, and the blocker: a literal of the clause, which is looked at first.
#[derive(Clone, Copy, Debug)]
struct Entry {
    next: Option<u32>,
    blocker: Literal,
}

/// The watches of each literal. Takes 16 bytes a variable, and 24 a clause.
#[derive(Drop)]
pub struct Watches {
    first: Vec<Option<u32>>,
    entries: Vec<Entry>,
}

impl Model for Watches {
    ghost use Rattle.sat_watches.specs.Watches.{WatchesView};

    ghost Value = { WatchesView };

    ghost view = { λ w. record { first = w.first.items; entries = w.entries.items } };
}

impl Watches {
    /// No variables.
    pub fn new(alloc: Global) -> Watches
        ensures { result ≡ spec.none_watched 0 }
    {
        Watches {
            first: Vec::new(alloc),
            entries: Vec::new(alloc),
        }
    }

    /// No variables and no clauses any more.
    pub fn clear(&mut self)
        ensures { self.new ≡ spec.none_watched 0 }
    {
        self.first.clear();
        self.entries.clear();
    }

    /// So many variables, whose literals nothing watches, and no clauses.
    pub fn start(&mut self, vars: usize) -> Result<(), Memory>
        ensures ok { OnOk result (self.new ≡ spec.none_watched vars) }
        ensures err { OnErr result (self.new ≡ spec.none_watched 0) }
    {
        self.clear();
        self.first.resize(vars.saturating_mul(2), None)?;
        Ok(())
    }

    /// One more variable, whose literals nothing watches.
    pub fn add(&mut self) -> Result<(), Memory>
        ensures { OnOk result (self.new ≡ spec.with_variable self.old) }
    {
        self.first.push(None)?;
        self.first.push(None)?;
        Ok(())
    }

    /// One more clause, whose watches stand in no list.
    pub fn add_clause(&mut self) -> Result<(), Memory>
        ensures { OnOk result (self.new ≡ spec.with_clause self.old) }
    {
        self.entries.push(unused())?;
        self.entries.push(unused())?;
        Ok(())
    }

    /// The watches of a clause come into the lists of its first two literals.
    pub fn note_clause(&mut self, clause: u32, first: Literal, second: Literal)
        ensures { self.new ≡ spec.noted_clause self.old clause first second }
    {
        let number = clause.saturating_mul(2);
        self.note(first, Watch { number }, second);
        let number = number.saturating_add(1);
        self.note(second, Watch { number }, first);
    }

    /// How many watches there are.
    pub fn len(&self) -> usize
        ensures { result ≡ length self.now.entries }
    {
        self.entries.len()
    }

    /// Takes the list of a literal off, and gives its first watch.
    pub fn take(&mut self, literal: Literal) -> Option<Watch>
        ensures first { result ≡ option_map spec.watch_of (spec.first_of self.old literal) }
        ensures rest { self.new ≡ spec.taken self.old literal }
    {
        let first = self.first(literal);
        set_item(&mut self.first, literal.index(), None);
        watch_of(first)
    }

    fn first(&self, literal: Literal) -> Option<u32>
        ensures { result ≡ spec.first_of self.now literal }
    {
        item_at(&self.first, literal.index(), None)
    }

    fn entry(&self, watch: Watch) -> Entry
        ensures { result ≡ spec.entry_of self.now watch }
    {
        item_at(&self.entries, watch.number as usize, unused())
    }

    /// The watch after one in its list.
    pub fn next(&self, watch: Watch) -> Option<Watch>
        ensures { result ≡ option_map spec.watch_of (spec.entry_of self.now watch).next }
    {
        watch_of(self.entry(watch).next)
    }

    /// The blocker of a watch.
    pub fn blocker(&self, watch: Watch) -> Literal
        ensures { result ≡ (spec.entry_of self.now watch).blocker }
    {
        self.entry(watch).blocker
    }

    /// A watch comes into the list of a literal.
    pub fn note(&mut self, literal: Literal, watch: Watch, blocker: Literal)
        ensures { self.new ≡ spec.noted self.old literal watch blocker }
    {
        let next = self.first(literal);
        let entry = Entry { next, blocker };
        set_item(&mut self.entries, watch.number as usize, entry);
        set_item(&mut self.first, literal.index(), Some(watch.number));
    }
}

fn watch_of(number: Option<u32>) -> Option<Watch>
    ensures { result ≡ option_map spec.watch_of number }
{
    match number {
        None => None,
        Some(number) => Some(Watch { number }),
    }
}

fn unused() -> Entry
    ensures { result ≡ spec.unused }
{
    Entry {
        next: None,
        blocker: Literal::none(),
    }
}
