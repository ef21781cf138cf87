//! The propagator: a trail and watches for the same literals. Its calls are in `propagate`, `base` and `follow`.

ghost use Rattle.std.specs.Prelude.{◌≡◌, ◌+◌, length, IfOk, OnOk};

use crate::trail::Trail;
use crate::watch::Watch;
use std::alloc::{AllocError, Global};

/// The literals that are held false, and the watches of the clauses that are taken in.
#[derive(Drop)]
pub struct Propagator {
    pub trail: Trail,
    pub watch: Watch,
    pub ghost same_size: { length watch.heads.items ≡ length trail.marks.items },
}

impl Propagator {
    ghost use Rattle.sat_proof.specs.Guard.{GoesOnServing};
    ghost use Rattle.sat_proof.specs.Propagator.{IsUnstarted};

    /// Room for as many codes and, in watches, as many clauses. Takes 25 bytes for each code, and 24 for each clause.
    pub fn new(alloc: Global, codes: usize, clauses: usize) -> Result<Propagator, AllocError>
        ensures { IfOk result (λ new. length new.trail.marks.items ≡ codes) }
    {
        let trail = Trail::new(alloc, codes)?;
        let watch = Watch::new(alloc, codes, clauses)?;
        Ok(Propagator { trail, watch })
    }

    /// Nothing is held false, and no clause is taken in.
    pub fn clear(&mut self)
        ensures blank { IsUnstarted self.new }
        ensures size { length self.new.trail.marks.items ≡ length self.old.trail.marks.items }
    {
        self.trail.clear();
        self.watch.clear();
    }

    /// The watches have room for one more clause. Takes 24 bytes for it, in steps that double.
    pub fn widen(&mut self) -> Result<(), AllocError>
        ensures trail { OnOk result (self.new.trail ≡ self.old.trail) }
        ensures serving { OnOk result (GoesOnServing self.old.watch self.new.watch) }
        ensures room { OnOk result (length self.new.watch.nexts.items ≡ length self.old.watch.nexts.items + 2) }
    {
        self.watch.widen()?;
        Ok(())
    }
}
