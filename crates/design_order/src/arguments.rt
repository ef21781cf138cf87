//! The first argument of a net that isn't listed.

ghost use Rattle.std.specs.Prelude.{◌≡◌, ◌<◌, ℕ, None, length};
ghost use Rattle.std.specs.List.{AllByRecursion};
ghost use Rattle.design_circuit.specs.Order.{arguments_of_driver, net_pins};
ghost use Rattle.design_order.specs.Progress.{first_open, open_pin};

use design_circuit::{Driver, Pin};

/// The first argument, in pin order, that has no flag.
pub fn first_open(driver: &Driver, flags: &[bool]) -> Option<u32>
    requires { AllByRecursion (λ net. net < length flags.now) (arguments_of_driver driver.now) }
    ensures { result ≡ first_open flags.now (arguments_of_driver driver.now) }
{
    match driver {
        Driver::Input => None,
        Driver::Undriven => None,
        Driver::Constant(_) => None,
        Driver::Copy(net) => {
            if flags[*net as usize] {
                None
            } else {
                Some(*net)
            }
        }
        Driver::Cell(_, pins) => first_open_pin(pins.as_slice(), flags),
        Driver::Register(_) => None,
    }
}

fn first_open_pin(pins: &[Pin], flags: &[bool]) -> Option<u32>
    requires { AllByRecursion (λ net. net < length flags.now) (net_pins pins.now) }
    ensures { result ≡ first_open flags.now (net_pins pins.now) }
{
    for pin in pins {
        if let Some(net) = open_net(*pin, flags) {
            return Some(net);
        }
    }
    None
}

/// The net of a pin, where it has no flag.
fn open_net(pin: Pin, flags: &[bool]) -> Option<u32>
    requires { AllByRecursion (λ net. net < length flags.now) (open_pin pin) }
    ensures { result ≡ first_open flags.now (open_pin pin) }
{
    match pin {
        Pin::Net(net) => { if flags[net as usize] { None } else { Some(net) } }
        Pin::Bit(_) => None,
        Pin::Dead => None,
    }
}
