//! The places of bound bits.

ghost use Rattle.std.specs.Prelude.{◌≡◌, ◌+◌, ◌-◌, ◌*◌, ◌<◌, length};

use design_circuit::{Place, Stim};
use recording_binding::BoundBit;

/// The place of a bound bit at the last round of its moment.
pub fn bit_place(stim: &Stim, bit: BoundBit) -> Place
    requires { bit.moment < length stim.now.times }
    ensures step { result.step ≡ bit.moment * stim.now.rounds + stim.now.rounds - 1 }
    ensures net { result.net ≡ bit.net }
{
    Place {
        step: bit.moment * stim.rounds + (stim.rounds - 1),
        net: bit.net,
    }
}
