//! Where the places of a circuit stand, and what stands there.

ghost use Rattle.std.specs.Prelude.{◌≡◌, ◌*◌, ◌<◌, ◌/◌};
ghost use Rattle.design_circuit.specs.Circuit.{job_in, IsSpot};
ghost use Rattle.design_circuit.specs.Job.{places_of};

use crate::circuit::Circuit;
use crate::design::Driver;
use design_cell::Value;

/// Where a place stands: its step, its position in the order, and its net.
#[derive(Clone, Copy, Debug)]
pub struct Spot {
    pub step: usize,
    pub position: usize,
    pub net: usize,
}

/// How many nets there are.
pub fn width_of(circuit: &Circuit<'_>) -> usize
    ensures { result ≡ (job_in circuit.now).width }
{
    circuit.design.nets.as_slice().len()
}

/// How many places there are.
pub fn count_places(circuit: &Circuit<'_>) -> usize
    ensures { result ≡ places_of (job_in circuit.now) }
{
    let steps = circuit.stim.times.as_slice().len() * circuit.stim.rounds as usize;
    width_of(circuit) * steps
}

/// Where the place of a number stands.
pub fn spot_of(circuit: &Circuit<'_>, place: usize) -> Spot
    requires within { place < places_of (job_in circuit.now) }
    ensures { IsSpot (job_in circuit.now) place result }
{
    let width = width_of(circuit);
    let position = place % width;
    let net = circuit.order.net(position as u32) as usize;
    Spot {
        step: place / width,
        position,
        net,
    }
}

/// The driver of a net.
pub fn driver_at<'a>(circuit: &Circuit<'a>, net: usize) -> &'a Driver
    requires { net < (job_in circuit.now).width }
    ensures { result.now ≡ (job_in circuit.now).driver net }
{
    &circuit.design.nets.as_slice()[net].driver
}

/// What a net starts with.
pub fn start_at(circuit: &Circuit<'_>, net: usize) -> Value
    requires net { net < (job_in circuit.now).width }
    ensures { result ≡ (job_in circuit.now).start net }
{
    circuit.stim.starts.as_slice()[net]
}

/// What the recording has for an input at a step.
pub fn recorded_at(circuit: &Circuit<'_>, step: usize, net: usize) -> Value
    requires step { step < (job_in circuit.now).moments * (job_in circuit.now).rounds }
    requires net { net < (job_in circuit.now).width }
    ensures { result ≡ (job_in circuit.now).recorded (step / (job_in circuit.now).rounds) net }
{
    let moment = step / circuit.stim.rounds as usize;
    circuit.stim.inputs.value(moment, net)
}
