//! A filling that is read in place order.

ghost use Rattle.std.specs.Prelude.{◌≡◌, ℕ, ◌+◌};
ghost use Rattle.design_circuit.specs.Circuit.{job_in};
ghost use Rattle.design_circuit.specs.Filling.{bit_of};
ghost use Rattle.wave_world.specs.Left.{Decides, IsLeft};

use design_circuit::{Circuit, Place};

/// The filling's bit at the place of a number, and what is left behind it.
#[tactic(auto, using(crate::proofs::Reading::behind_left))]
pub fn next_bit<'f>(circuit: &Circuit<'_>, left: &'f [Place], place: usize) -> (bool, &'f [Place])
    requires left { IsLeft (job_in circuit.now) place left.now }
    ensures bit { result.0 ≡ bit_of (job_in circuit.now) left.now place }
    ensures left { IsLeft (job_in circuit.now) (place + 1) result.1.now }
    ensures decides { Decides (job_in circuit.now) (place + 1) result.1.now left.now }
{
    match left {
        [first, rest @ ..] => {
            if circuit.number_of(*first) == place {
                (true, rest)
            } else {
                (false, left)
            }
        }
        [] => (false, left),
    }
}
