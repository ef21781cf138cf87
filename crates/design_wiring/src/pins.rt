//! The pins that a driver reads, each net by its position in the order.

ghost use Rattle.std.specs.Prelude.{◌≡◌, ◌<◌, ◌++◌, ◌∷◌, [], IfOk, length, map};
ghost use Rattle.std.specs.List.{AllByRecursion};
ghost use Rattle.design_circuit.specs.Order.{net_pins};
ghost use Rattle.design_wiring.specs.Wired as spec;

use base_lists::Memory;
use design_circuit::{Driver, Order, Pin};

/// Appends the pins that a driver reads.
pub fn add_pins_of(pins: &mut Vec<Pin>, order: &Order, driver: &Driver) -> Result<(), Memory>
    requires nets { AllByRecursion (λ net. net < length order.now) (net_pins (spec.pins_of driver.now)) }
    ensures { IfOk result (λ _. pins.new.items ≡ pins.old.items ++ (spec.wire_of order.now driver.now).pins) }
{
    match driver {
        Driver::Input => Ok(()),
        Driver::Undriven => Ok(()),
        Driver::Constant(_) => Ok(()),
        Driver::Copy(net) => add_pins(pins, order, &[Pin::Net(*net)]),
        Driver::Cell(_, own) => add_pins(pins, order, own.as_slice()),
        Driver::Register(latching) => add_pins(pins, order, latching.pins.as_slice()),
    }
}

fn add_pins(pins: &mut Vec<Pin>, order: &Order, own: &[Pin]) -> Result<(), Memory>
    requires nets { AllByRecursion (λ net. net < length order.now) (net_pins own.now) }
    ensures { IfOk result (λ _. pins.new.items ≡ pins.old.items ++ map (spec.placed order.now) own.now) }
{
    'own: for pin in own {
        pins.push(placed(order, *pin))?;
    }
    Ok(())
}

/// A pin, its net by its position.
fn placed(order: &Order, pin: Pin) -> Pin
    requires { AllByRecursion (λ net. net < length order.now) (net_pins (pin ∷ [])) }
    ensures { result ≡ spec.placed order.now pin }
{
    match pin {
        Pin::Net(net) => Pin::Net(order.position(net)),
        Pin::Bit(bit) => Pin::Bit(bit),
        Pin::Dead => Pin::Dead,
    }
}
