//! What earlier places of a walk leave for later ones.

ghost use Rattle.std.specs.Prelude.{IfOk};
ghost use Rattle.decide_repair.specs.Walk.{AreRightOf};
ghost use Rattle.wave_proved.specs.Contents.{Contents};

use crate::answers::Answers;
use base_lists::Memory;
use decide_cone::Cones;
use decide_guess::Guesser;
use decide_pool::Pool;
use std::alloc::Global;

/// What places depend on, lanes and guesses about them, and the answers of searches.
#[derive(Drop)]
pub struct Aids {
    pub cones: Cones,
    pub pool: Pool,
    pub guesser: Guesser,
    pub answers: Answers,
}

impl Aids {
    /// Of no place anything is known.
    pub fn new(alloc: Global) -> Result<Aids, Memory>
        ensures { IfOk result (λ aids. (c : Contents) → AreRightOf c aids) }
    {
        Ok(Aids {
            cones: Cones::new(alloc)?,
            pool: Pool::new(alloc),
            guesser: Guesser::new(alloc),
            answers: Answers::new(alloc),
        })
    }
}
