//! Where the next place stands: carried along, since a division for each place is slow.

ghost use Rattle.std.specs.Prelude.{◌≡◌, ◌+◌, ◌<◌};
ghost use Rattle.design_circuit.specs.Circuit.{job_in};
ghost use Rattle.design_circuit.specs.Job.{places_of};
ghost use Rattle.wave_bytes.specs.Front.{IsFront, StandsAt, place_of_front};
ghost use Rattle.wave_bytes.specs.Repeat.{IsStretch};

use design_circuit::{Circuit, Place, width_of};

/// A step, and a position in the order.
#[derive(Clone, Copy, Debug)]
pub struct Front {
    pub step: usize,
    pub position: usize,
}

/// Where the first place stands.
pub fn first_front(circuit: &Circuit<'_>) -> Front
    ensures { StandsAt (job_in circuit.now) 0 result }
{
    Front {
        step: 0,
        position: 0,
    }
}

/// Where the place behind a place stands.
pub fn front_behind(circuit: &Circuit<'_>, front: Front, place: usize) -> Front
    requires within { place < places_of (job_in circuit.now) }
    requires stands { StandsAt (job_in circuit.now) place front }
    ensures stands { StandsAt (job_in circuit.now) (place + 1) result }
    ensures next { 0 < result.position → result.position ≡ front.position + 1 }
{
    let next = front.position + 1;
    if next < width_of(circuit) {
        Front {
            step: front.step,
            position: next,
        }
    } else {
        Front {
            step: front.step + 1,
            position: 0,
        }
    }
}

/// Where the place behind so many places stands, all of one step.
pub fn front_after(circuit: &Circuit<'_>, front: Front, place: usize, many: usize) -> Front
    requires stretch { IsStretch (job_in circuit.now) place many }
    requires stands { StandsAt (job_in circuit.now) place front }
    ensures stands { StandsAt (job_in circuit.now) (place + many) result }
    ensures next { 0 < result.position → result.position ≡ front.position + many }
{
    if many == 0 {
        return front;
    }
    let next = front.position + many;
    if next < width_of(circuit) {
        Front {
            step: front.step,
            position: next,
        }
    } else {
        Front {
            step: front.step + 1,
            position: 0,
        }
    }
}

/// The place that stands there.
pub fn place_there(circuit: &Circuit<'_>, front: Front) -> Place
    requires { IsFront (job_in circuit.now) front }
    ensures { result ≡ place_of_front (job_in circuit.now) front }
{
    Place {
        step: front.step as u32,
        net: circuit.order.net(front.position as u32),
    }
}
