//! The path of the modules that are open.

ghost use Rattle.std.specs.Prelude.{◌≡◌, IfOk};
ghost use Rattle.elab_tree.specs.Elaborate as spec;

use design_circuit::Bytes;
use elab_nets::ElabErr;
use std::alloc::{AllocError, Global};

/// The positions of the modules that are open, the top first, and how many more there may be.
#[derive(Clone, Copy)]
pub struct Path<'p> {
    pub modules: &'p [usize],
    pub room: usize,
}

impl Path<'_> {
    ghost use Rattle.std.specs.Prelude.{◌≡◌, ◌<◌, ◌++◌, ◌∷◌, [], IfOk};
    ghost use Rattle.elab_nets.specs.Outcome.{Gives};
    ghost use Rattle.elab_tree.specs.Elaborate as spec;

    /// A path has no module twice, and at most 32. `name` is that of the module at a position.
    pub fn enter(&self, alloc: Global, name: &[u8], k: usize) -> Result<(), ElabErr>
        ensures entered { Gives (spec.entered self.now.modules.now self.now.room name.now k) result (λ _. k) }
        ensures room { IfOk result (λ _. 0 < self.now.room) }
    {
        if stands_on(self.modules, k) {
            return Err(ElabErr::SelfInstance {
                name: copy_of(alloc, name)?,
            });
        }
        if self.room == 0 {
            return Err(ElabErr::TooDeep {
                name: copy_of(alloc, name)?,
            });
        }
        Ok(())
    }

    /// Its modules and one more.
    pub fn extended(&self, alloc: Global, k: usize) -> Result<Vec<usize>, AllocError>
        ensures { IfOk result (λ more. more.items ≡ self.now.modules.now ++ k ∷ []) }
    {
        let mut more = self.modules.to_vec(alloc)?;
        more.push(k)?;
        Ok(more)
    }
}

fn stands_on(path: &[usize], k: usize) -> bool
    ensures { result ≡ spec.is_on path.now k }
{
    path.iter().any(|p| *p == k)
}

pub fn copy_of(alloc: Global, bytes: &[u8]) -> Result<Bytes, AllocError>
    ensures { IfOk result (λ copy. copy ≡ bytes.now) }
{
    Ok(Bytes::from_vec(bytes.to_vec(alloc)?))
}
