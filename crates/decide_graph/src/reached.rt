//! Places that are reached and still to be looked at.

ghost use Rattle.std.specs.Prelude.{◌≡◌, [], OnOk};
ghost use Rattle.decide_graph.specs.Reached.{Adds, Takes};

use crate::heap::{pop_below, put};
use crate::noted::{forget, is_noted, none, note};
use base_lists::Memory;
use std::alloc::Global;
use std::collections::BinaryHeap;
use std::marker::Model;

/// Some places by number: the greatest, and the others in a heap. Most of them are noted, so that they don't come in
/// again. Contracts see the list of them, some maybe more than once.
#[derive(Drop)]
pub struct Reached {
    greatest: Option<usize>,
    others: BinaryHeap<usize>,
    noted: [usize; 64],
}

impl Model for Reached {
    ghost use Rattle.std.specs.Prelude.{List, ℕ};
    ghost use Rattle.std.specs.BinaryHeap.{IsHeap, heap_items};
    ghost use Rattle.std.specs.Ordering.{nat_cmp};
    ghost use Rattle.decide_graph.specs.Noted.{AreNoted};
    ghost use Rattle.decide_graph.specs.Reached.{AreBelow, listed};

    ghost Value = { List ℕ };

    ghost view = { λ r. listed r.greatest (heap_items r.others) };

    ghost invariant = { λ r.
        IsHeap nat_cmp (heap_items r.others) × AreBelow r.greatest (heap_items r.others)
        × AreNoted r.noted (listed r.greatest (heap_items r.others)) };
}

impl Reached {
    /// No places.
    pub fn new(alloc: Global) -> Reached
        ensures { result ≡ [] }
    {
        Reached {
            greatest: None,
            others: BinaryHeap::new(alloc),
            noted: none(),
        }
    }

    /// A place comes in. Takes no memory where it is the only one.
    pub fn insert(&mut self, place: usize) -> Result<(), Memory>
        ensures { OnOk result (Adds self.old place self.new) }
    {
        match self.greatest {
            None => {
                self.greatest = Some(place);
                note(&mut self.noted, place);
                Ok(())
            }
            Some(greatest) => {
                if is_noted(&self.noted, place) {
                    return Ok(());
                }
                let now = put(&mut self.others, greatest, place)?;
                self.greatest = Some(now);
                note(&mut self.noted, place);
                Ok(())
            }
        }
    }

    /// Takes the greatest out, if there is one.
    pub fn take_greatest(&mut self) -> Option<usize>
        ensures { Takes self.old result self.new }
    {
        match self.greatest {
            None => None,
            Some(greatest) => {
                self.greatest = pop_below(&mut self.others, greatest);
                forget(&mut self.noted, greatest);
                Some(greatest)
            }
        }
    }
}
