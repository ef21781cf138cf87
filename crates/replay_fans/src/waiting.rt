//! The positions that wait to be computed.

ghost use Rattle.std.specs.Prelude.{◌≡◌, ◌≤◌, ◌^◌, IfOk, length};
ghost use Rattle.replay_due.specs.Due.{AreAllDue, HasRoomFor};

use base_lists::Memory;
use replay_due::Due;
use std::alloc::Global;
use std::mem;

/// The positions that are due in a step, and those that are in the step behind it.
#[derive(Debug, Drop)]
pub struct Waiting {
    pub due: Due,
    pub ahead: Due,
}

impl Waiting {
    /// All of so many positions are due. Takes two bits for each.
    pub fn all(alloc: Global, count: usize) -> Result<Waiting, Memory>
        requires { count ≤ 2 ^ 20 }
        ensures due { IfOk result (λ waiting. HasRoomFor waiting.due count) }
        ensures ahead { IfOk result (λ waiting. HasRoomFor waiting.ahead count) }
        ensures all { IfOk result (λ waiting. AreAllDue waiting.due count) }
    {
        let due = Due::all(alloc, count)?;
        let ahead = Due::none(alloc, count)?;
        Ok(Waiting { due, ahead })
    }

    /// What was ahead is due, and nothing is ahead.
    pub fn turn(&mut self)
        ensures due { self.new.due ≡ self.old.ahead }
        ensures ahead { length self.new.ahead ≡ length self.old.due }
    {
        self.due.clear();
        mem::swap(&mut self.due, &mut self.ahead);
    }
}
