//! What drives a net.

ghost use Rattle.std.specs.Prelude.{◌≡◌, ◌≢◌, ◌≤◌, ◌+◌, ◌^◌, IfErr, length};
ghost use Rattle.elab_nets.specs.declared.fault.ElabErr.TheVariants.{Memory as OutOfMemory};
ghost use Rattle.elab_nets.specs.Outcome.{Gives};
ghost use Rattle.elab_bits.specs.Drive as spec;

use crate::run::Lane;
use crate::runs::Runs;
use design_circuit::{Driver, Pin};
use elab_nets::{ElabErr, Nets};

/// Gives the bits on the left those on the right, from left to right.
pub fn drive(nets: &mut Nets, left: &Runs, right: &Runs) -> Result<(), ElabErr>
    ensures driven { Gives (spec.all_driven left.now right.now nets.old) result (λ _. nets.new) }
    ensures no_memory { IfErr result (λ e. e ≢ OutOfMemory) }
{
    let mut left = left.lanes();
    let mut right = right.lanes();
    'lanes: while let Some(lane) = left.take() {
        let Some(bit) = right.take() else {
            return Ok(());
        };
        drive_lane(nets, lane, bit)?;
    }
    Ok(())
}

/// Gives the nets from the first on the bits, whatever they have.
pub fn feed(nets: &mut Nets, first: u32, lanes: &Runs)
    requires { first + length lanes.now ≤ 2 ^ 20 }
    ensures { nets.new ≡ spec.fed first lanes.now nets.old }
{
    let mut net = first;
    let mut left = lanes.lanes();
    'lanes: while let Some(lane) = left.take() {
        nets.set(net, driver_from(lane.pin));
        net += 1;
    }
}

fn drive_lane(nets: &mut Nets, left: Lane, right: Lane) -> Result<(), ElabErr>
    ensures driven { Gives (spec.driven_lane left right nets.old) result (λ _. nets.new) }
    ensures no_memory { IfErr result (λ e. e ≢ OutOfMemory) }
{
    match left.pin {
        Pin::Net(net) if nets.has_driver(net) => Err(ElabErr::TwoDrivers { net, at: left.at }),
        Pin::Net(net) => {
            nets.set(net, driver_from(right.pin));
            Ok(())
        }
        Pin::Bit(_) | Pin::Dead => Err(ElabErr::BadName { at: left.at }),
    }
}

/// The driver of a net that takes what a pin has.
fn driver_from(pin: Pin) -> Driver
    ensures { result ≡ spec.driver_from pin }
{
    match pin {
        Pin::Net(net) => Driver::Copy(net),
        Pin::Bit(bit) => Driver::Constant(bit),
        Pin::Dead => Driver::Undriven,
    }
}
