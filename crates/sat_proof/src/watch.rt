//! The watches: for each literal the clauses that are to be looked at once it is false, as a chain. They have room
//! for a given number of clauses, which `widen` makes larger, and are off once it doesn't suffice.

ghost use Rattle.std.specs.Prelude.{◌≡◌, ◌≢◌, ◌≤◌, ◌<◌, ◌+◌, ◌/◌, [], pos, true, length, slice_set, IfOk, OnOk};
ghost use Rattle.std.specs.List.{All};
ghost use Rattle.sat_proof.specs.Code.{HasRoom, code_of};
ghost use Rattle.sat_proof.specs.Status.{literal_at};

use crate::code::code;
use crate::index::zero;
use std::alloc::{AllocError, Global};

/// For each code the first entry of its chain and the number of entries; for each entry the next one and the literal
/// that it watches. Clause n has the entries 2n and 2n + 1. Entry e is written e + 1, and 0 is none.
#[derive(Drop)]
pub struct Watch {
    pub heads: Vec<usize>,
    pub counts: Vec<usize>,
    pub nexts: Vec<usize>,
    pub literals: Vec<i32>,
    pub used: usize,
    pub on: bool,
    pub ghost counted: { length counts.items ≡ length heads.items },
    pub ghost literal_each: { length nexts.items ≤ length literals.items },
    pub ghost in_use: { used ≤ length nexts.items },
}

impl Watch {
    ghost use Rattle.sat_proof.specs.Guard.{GoesOnServing};
    ghost use Rattle.sat_proof.specs.Watch.{IsWider, IsChained, IsLaced, IsLink, IsDetached, IsMoved, IsStaged};
    ghost use Rattle.sat_proof.specs.Watch.{IsAddedIfOn, AreTwins, watched, count_of, head_of};

    /// Room for as many codes and clauses. Takes 16 bytes for each code, and 24 for each clause.
    pub fn new(alloc: Global, codes: usize, clauses: usize) -> Result<Watch, AllocError>
        ensures { IfOk result (λ watch. length watch.heads.items ≡ codes) }
    {
        let entries = clauses.saturating_mul(2);
        let heads = vec![in alloc; 0; codes]?;
        let counts = vec![in alloc; 0; codes]?;
        let nexts = vec![in alloc; 0; entries]?;
        let literals = vec![in alloc; 0; entries]?;
        Ok(Watch {
            heads,
            counts,
            nexts,
            literals,
            used: 0,
            on: true,
        })
    }

    /// The watches of no clause.
    pub fn clear(&mut self)
        ensures size { length self.new.heads.items ≡ length self.old.heads.items }
        ensures none { IsLaced self.new [] 0 0 }
        ensures on { self.new.on ≡ true }
    {
        zero(&mut self.heads);
        zero(&mut self.counts);
        self.used = 0;
        self.on = true;
    }

    /// Has room for one more clause. Takes 24 bytes for it, in steps that double.
    pub fn widen(&mut self) -> Result<(), AllocError>
        ensures size { length self.new.heads.items ≡ length self.old.heads.items }
        ensures serving { OnOk result (GoesOnServing self.old self.new) }
        ensures room { OnOk result (length self.new.nexts.items ≡ length self.old.nexts.items + 2) }
    {
        self.widen_entry()?;
        self.widen_entry()?;
        Ok(())
    }

    /// Has room for one more entry.
    fn widen_entry(&mut self) -> Result<(), AllocError>
        ensures wider { OnOk result (IsWider self.old self.new) }
        ensures size { length self.new.heads.items ≡ length self.old.heads.items }
    {
        self.literals.push(0)?;
        self.nexts.push(0)?;
        Ok(())
    }

    /// Takes in one more clause, which watches two of its literals.
    pub fn add(&mut self, literals: &[i32], j: usize, k: usize)
        requires chained { self.old.on ≡ true → IsChained self.old 0 0 }
        requires j { j < length literals.now }
        requires k { k < length literals.now }
        requires room { All (HasRoom (length self.old.heads.items)) literals.now }
        ensures size { length self.new.heads.items ≡ length self.old.heads.items }
        ensures chained { self.new.on ≡ true → IsChained self.new 0 0 }
        ensures added { IsAddedIfOn self.old self.new (literal_at literals.now j) (literal_at literals.now k) }
        ensures on { self.new.on ≡ true → self.old.on ≡ true }
        ensures stays { self.old.on ≡ true → self.old.used + 2 ≤ length self.old.nexts.items → self.new.on ≡ true }
    {
        if !self.on {
            return;
        }
        if self.nexts.len() - self.used < 2 {
            self.on = false;
            return;
        }
        let first = self.stage(0, literals, j);
        let second = self.stage(first, literals, k);
        self.restore(second, 2);
    }

    /// Takes in one more clause, which watches none of its literals.
    pub fn skip(&mut self)
        requires chained { self.old.on ≡ true → IsChained self.old 0 0 }
        ensures size { length self.new.heads.items ≡ length self.old.heads.items }
        ensures chained { self.new.on ≡ true → IsChained self.new 0 0 }
        ensures added { IsAddedIfOn self.old self.new (pos 0) (pos 0) }
        ensures on { self.new.on ≡ true → self.old.on ≡ true }
        ensures stays { self.old.on ≡ true → self.old.used + 2 ≤ length self.old.nexts.items → self.new.on ≡ true }
    {
        if !self.on {
            return;
        }
        if self.nexts.len() - self.used < 2 {
            self.on = false;
            return;
        }
        self.blank();
        self.blank();
    }

    /// One more entry, before a loose chain; the chain's new head.
    fn stage(&mut self, at: usize, literals: &[i32], k: usize) -> usize
        requires left { self.old.used < length self.old.nexts.items }
        requires below { k < length literals.now }
        ensures staged { IsStaged self.old self.new at (literal_at literals.now k) }
        ensures head { result ≡ self.old.used + 1 }
    {
        self.nexts[self.used] = at;
        self.literals[self.used] = literals[k];
        self.used += 1;
        self.used
    }

    /// One more entry, which watches nothing.
    fn blank(&mut self)
        requires left { self.old.used < length self.old.nexts.items }
        ensures { IsStaged self.old self.new 0 (pos 0) }
    {
        self.nexts[self.used] = 0;
        self.literals[self.used] = 0;
        self.used += 1;
    }

    /// How many entries a code's chain has.
    pub fn count(&self, code: usize) -> usize
        requires { code < length self.now.heads.items }
        ensures { result ≡ count_of self.now code }
    {
        self.counts[code]
    }

    /// Takes a code's chain off; its first entry.
    pub fn detach(&mut self, code: usize) -> usize
        requires room { code < length self.old.heads.items }
        ensures head { result ≡ head_of self.old code }
        ensures detached { IsDetached self.old self.new code }
    {
        let head = self.heads[code];
        self.heads[code] = 0;
        self.counts[code] = 0;
        head
    }

    /// An entry watches the literal at a place.
    pub fn move_to(&mut self, entry: usize, literals: &[i32], k: usize)
        requires below { k < length literals.now }
        requires entry { entry < length self.old.nexts.items }
        ensures { IsMoved self.old self.new entry (literal_at literals.now k) }
    {
        self.literals[entry] = literals[k];
    }

    /// Puts an entry at the head of its literal's chain.
    pub fn link(&mut self, entry: usize)
        requires room { HasRoom (length self.old.heads.items) (watched self.old entry) }
        requires below { entry < length self.old.nexts.items }
        requires count { count_of self.old (code_of (watched self.old entry)) < length self.old.nexts.items }
        ensures { IsLink self.old self.new entry }
    {
        self.link_to(entry, self.code_at(entry));
    }

    /// Puts the entries of a loose chain into the chains of their literals.
    pub fn restore(&mut self, head: usize, count: usize)
        requires { IsChained self.old head count }
        ensures size { length self.new.heads.items ≡ length self.old.heads.items }
        ensures chained { IsChained self.new 0 0 }
        ensures literals { self.new.literals.items ≡ self.old.literals.items }
        ensures used { self.new.used ≡ self.old.used }
        ensures on { self.new.on ≡ self.old.on }
    {
        let mut at = head;
        let mut left = count;
        while left > 0 {
            let entry = at - 1;
            at = self.nexts[entry];
            self.link(entry);
            left -= 1;
        }
    }

    /// The other entry of an entry's clause.
    pub fn twin(&self, entry: usize) -> usize
        requires below { entry < length self.now.nexts.items }
        ensures { AreTwins entry result (entry / 2) }
    {
        if entry % 2 == 0 { entry + 1 } else { entry - 1 }
    }

    fn code_at(&self, entry: usize) -> usize
        requires below { entry < length self.now.nexts.items }
        requires some { watched self.now entry ≢ pos 0 }
        ensures { result ≡ code_of (watched self.now entry) }
    {
        code(self.literals[entry])
    }

    fn link_to(&mut self, entry: usize, code: usize)
        requires room { code < length self.old.heads.items }
        requires below { entry < length self.old.nexts.items }
        requires count { count_of self.old code < length self.old.nexts.items }
        ensures heads { self.new.heads.items ≡ slice_set self.old.heads.items code (entry + 1) }
        ensures counts { self.new.counts.items ≡ slice_set self.old.counts.items code (count_of self.old code + 1) }
        ensures nexts { self.new.nexts.items ≡ slice_set self.old.nexts.items entry (head_of self.old code) }
        ensures literals { self.new.literals.items ≡ self.old.literals.items }
        ensures used { self.new.used ≡ self.old.used }
        ensures on { self.new.on ≡ self.old.on }
    {
        self.nexts[entry] = self.heads[code];
        self.heads[code] = entry + 1;
        self.counts[code] += 1;
    }
}
