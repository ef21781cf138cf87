//! The two sides of a comparison.

ghost use Rattle.std.specs.Prelude.{◌≡◌, ◌<◌};
ghost use Rattle.design_circuit.specs.Settled.{last_step};
ghost use Rattle.replay_history.specs.Sides.{AreSides, job_beside};

use design_circuit::{Circuit, History};
use recording_reader::Recording;

/// The replay of a circuit, and a recording of it.
#[derive(Clone, Copy)]
pub struct Sides<'a> {
    pub circuit: Circuit<'a>,
    pub history: &'a History,
    pub recording: &'a Recording,
}

/// The last step of a moment.
pub fn last_step_of(sides: &Sides<'_>, moment: u32) -> u32
    requires sides { AreSides sides.now }
    requires moment { moment < (job_beside sides.now).moments }
    ensures { result ≡ last_step (job_beside sides.now) moment }
{
    let rounds = sides.circuit.stim.rounds;
    moment * rounds + (rounds - 1)
}
