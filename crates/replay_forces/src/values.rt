//! Values of which it is known where they move from one step to the next.

ghost use Rattle.std.specs.Prelude.{◌≡◌, ℕ, ◌+◌, ◌*◌, ◌<◌, ◌^◌};
ghost use Rattle.design_circuit.specs.Job.{Job as AJob};
ghost use Rattle.replay_forces.specs.Still.{AreMoves};

use design_circuit::Source;
use wave_proved::Anew;

/// Values at the places of a job, step by step, of which it is known where they stay.
pub trait Moving: Source {
    ghost job: { Self → AJob };

    /// The places of a step behind the first at which the value may be another than that of their nets a step before,
    /// in place order.
    fn moves_at(&self, step: usize) -> &[Anew]
        requires later { 0 < step }
        requires has { (place : ℕ) → place < (step + 1) * (job self.now).width → Self.has self.now place }
        ensures { AreMoves (job self.now) (Self.reads self.now) step result.now };

    /// Goes on to a step. The values of it and of the two steps before it are found soonest then.
    fn go_to(&mut self, step: usize)
        requires small { step < 2 ^ 32 }
        requires has { (place : ℕ) → place < (step + 1) * (job self.old).width → Self.has self.old place }
        ensures job { job self.new ≡ job self.old }
        ensures reads { Self.reads self.new ≡ Self.reads self.old }
        ensures has { (place : ℕ) → Self.has self.old place → Self.has self.new place };
}
