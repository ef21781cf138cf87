//! Time in code.

ghost use Rattle.std.specs.Prelude.{◌≡◌};
ghost use Rattle.replay_code.specs.Clock as clock;
ghost use Rattle.replay_code.specs.Steps.{HasStep};

use design_circuit::Stim;

/// The time that code has come to, and the round of the moment at that time.
#[derive(Clone, Copy)]
pub struct Clock {
    pub time: u64,
    pub round: u32,
}

/// The clock at a step.
pub fn clock_at(stim: &Stim, step: u32) -> Clock
    requires { HasStep stim.now step }
    ensures { result ≡ clock.clock_at stim.now step }
{
    Clock {
        time: stim.times.as_slice()[(step / stim.rounds) as usize],
        round: step % stim.rounds,
    }
}
