//! The index: for each literal the clauses that hold it, as a chain. It has room for a given number of entries, and
//! is off once they don't suffice.

ghost use Rattle.std.specs.Prelude.{◌≡◌, ◌<◌, ◌≤◌, [], ℕ, length, slice_index, IfOk};
ghost use Rattle.std.specs.List.{All};
ghost use Rattle.sat_proof.specs.Code.{HasRoom, HaveRoom, code_of};
ghost use Rattle.sat_proof.specs.Status.{literal_at};

use crate::clause::Clause;
use crate::code::code;
use std::alloc::{AllocError, Global};

/// For each code the last entry and the number of entries; for each entry the one before it and its clause. Entry e
/// is written e + 1, and 0 is none.
#[derive(Drop)]
pub(crate) struct Index {
    pub(crate) heads: Vec<usize>,
    pub(crate) counts: Vec<usize>,
    pub(crate) nexts: Vec<usize>,
    pub(crate) owners: Vec<usize>,
    pub(crate) used: usize,
    pub(crate) on: bool,
    ghost counted: { length counts.items ≡ length heads.items },
    ghost owned: { length owners.items ≡ length nexts.items },
    ghost in_use: { used ≤ length nexts.items },
}

impl Index {
    ghost use Rattle.sat_proof.specs.Index.{IsIndexed, Serves, ServesMore, IsLink, head_of};

    /// Room for as many codes and entries. Takes 16 bytes for each.
    pub(crate) fn new(alloc: Global, codes: usize, entries: usize) -> Result<Index, AllocError>
        ensures { IfOk result (λ index. length index.heads.items ≡ codes) }
    {
        let heads = vec![in alloc; 0; codes]?;
        let counts = vec![in alloc; 0; codes]?;
        let nexts = vec![in alloc; 0; entries]?;
        let owners = vec![in alloc; 0; entries]?;
        Ok(Index {
            heads,
            counts,
            nexts,
            owners,
            used: 0,
            on: true,
        })
    }

    /// The index of no clause.
    pub(crate) fn clear(&mut self)
        ensures size { length self.new.heads.items ≡ length self.old.heads.items }
        ensures none { IsIndexed self.new [] }
    {
        zero(&mut self.heads);
        zero(&mut self.counts);
        self.used = 0;
        self.on = true;
    }

    /// Takes in the clauses of a formula.
    pub(crate) fn load(&mut self, clauses: &[Clause])
        requires room { HaveRoom (length self.old.heads.items) clauses.now }
        requires none { Serves self.old [] }
        ensures size { length self.new.heads.items ≡ length self.old.heads.items }
        ensures served { Serves self.new clauses.now }
    {
        for n in 0..clauses.len() {
            self.add(n, clauses[n].as_slice());
        }
    }

    /// Takes in one more clause, number `owner`.
    pub(crate) fn add(&mut self, owner: usize, literals: &[i32])
        requires room { All (HasRoom (length self.old.heads.items)) literals.now }
        ensures size { length self.new.heads.items ≡ length self.old.heads.items }
        ensures served { ServesMore self.old self.new owner literals.now }
    {
        if !self.on {
            return;
        }
        if literals.len() > self.nexts.len() - self.used {
            self.on = false;
            return;
        }
        for k in 0..literals.len() {
            self.link_at(literals, k, owner);
        }
    }

    /// Puts an entry at the head of the chain of the literal at a place.
    fn link_at(&mut self, literals: &[i32], k: usize, owner: usize)
        requires room { All (HasRoom (length self.old.heads.items)) literals.now }
        requires below { k < length literals.now }
        requires left { self.old.used < length self.old.nexts.items }
        ensures { IsLink self.old self.new (code_of (literal_at literals.now k)) owner }
    {
        self.link(code(literals[k]), owner);
    }

    /// Puts an entry at the head of a code's chain.
    fn link(&mut self, code: usize, owner: usize)
        requires room { code < length self.old.heads.items }
        requires left { self.old.used < length self.old.nexts.items }
        ensures { IsLink self.old self.new code owner }
    {
        self.nexts[self.used] = self.heads[code];
        self.owners[self.used] = owner;
        self.used += 1;
        self.heads[code] = self.used;
        self.counts[code] = self.counts[code].saturating_add(1);
    }

    /// A place of a literal that the fewest entries hold.
    pub(crate) fn rarest(&self, literals: &[i32]) -> usize
        requires filled { 0 < length literals.now }
        requires room { All (HasRoom (length self.now.heads.items)) literals.now }
        ensures { result < length literals.now }
    {
        let mut best = 0;
        for k in 1..literals.len() {
            if self.count_at(literals, k) < self.count_at(literals, best) {
                best = k;
            }
        }
        best
    }

    fn count_at(&self, literals: &[i32], k: usize) -> usize
        requires below { k < length literals.now }
        requires room { All (HasRoom (length self.now.heads.items)) literals.now }
    {
        self.counts[code(literals[k])]
    }

    /// The head of the chain of the literal at a place.
    pub(crate) fn head_at(&self, literals: &[i32], k: usize) -> usize
        requires below { k < length literals.now }
        requires room { All (HasRoom (length self.now.heads.items)) literals.now }
        ensures { result ≡ head_of self.now (code_of (literal_at literals.now k)) }
    {
        self.heads[code(literals[k])]
    }
}

pub(crate) fn zero(numbers: &mut [usize])
    ensures { (k : ℕ) → slice_index numbers.new k ≡ 0 }
{
    for number in numbers.iter_mut() {
        *number = 0;
    }
}
