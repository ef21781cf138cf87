//! The argument places of a place, in the order in which its rule names them.

ghost use Rattle.std.specs.Prelude.{◌≡◌, ℕ, ◌+◌, ◌-◌, ◌*◌, ◌^◌, ◌<◌, ◌≤◌, [], ◌∷◌, ◌++◌, length};
ghost use Rattle.std.specs.List.{AllByRecursion};
ghost use Rattle.design_cell.specs.declared.value.Value.{Value as AnyValue};
ghost use Rattle.design_circuit.specs.Circuit.{job_in, IsSpot};
ghost use Rattle.design_circuit.specs.Fits.{FitsDriver, FitsRegister};
ghost use Rattle.design_circuit.specs.Job.{at, places_of};
ghost use Rattle.design_circuit.specs.Order.{net_pins, arguments_of_driver};
ghost use Rattle.design_circuit.specs.Rule.{arguments, arguments_of, born_arguments, places_at, old_places};
ghost use Rattle.design_circuit.specs.Rule.{register_arguments};
ghost use Rattle.wave_class.specs.Arguments.{looked_places};

use crate::arguments::ArgumentsByNumber;
use design_circuit::{
    Circuit, Driver, Latching, Pin, Source, Spot, clock_is_uncertain, driver_at, recorded_at,
    spot_of, width_of,
};

/// The argument places of a place, in the order in which its rule names them, with doubles.
#[tactic(auto, unfolding(design_circuit::specs::Rule::arguments))]
pub fn ruled_arguments<C: Source>(
    circuit: &Circuit<'_>,
    certain: &C,
    place: usize,
) -> ArgumentsByNumber
    requires within { place < places_of (job_in circuit.now) }
    requires certain { (k : ℕ) → k < place → C.has certain.now k }
    ensures { result ≡ arguments (job_in circuit.now) (C.reads certain.now) place }
{
    let spot = spot_of(circuit, place);
    driver_arguments(circuit, certain, place, spot, driver_at(circuit, spot.net))
}

fn driver_arguments<C: Source>(
    circuit: &Circuit<'_>,
    certain: &C,
    place: usize,
    spot: Spot,
    driver: &Driver,
) -> ArgumentsByNumber
    requires spot { IsSpot (job_in circuit.now) place spot }
    requires driver { FitsDriver (job_in circuit.now).udps (job_in circuit.now).width driver.now }
    requires nets { AllByRecursion (λ net. net < (job_in circuit.now).width) (arguments_of_driver driver.now) }
    requires certain { (k : ℕ) → k < place → C.has certain.now k }
    ensures { result ≡ arguments_of (job_in circuit.now) (C.reads certain.now) spot.step spot.net driver.now }
{
    match driver {
        Driver::Input => {
            if recorded_at(circuit, spot.step, spot.net).is_known() {
                ArgumentsByNumber::new()
            } else {
                born_places(circuit, place, spot)
            }
        }
        Driver::Undriven => born_places(circuit, place, spot),
        Driver::Constant(_) => ArgumentsByNumber::new(),
        Driver::Copy(net) => one_place(circuit, spot.step, *net),
        Driver::Cell(_, pins) => pin_places(circuit, spot.step, pins.as_slice()),
        Driver::Register(latching) => register_places(circuit, certain, place, spot, latching),
    }
}

/// The number of a net's place at a step.
pub fn number_at(circuit: &Circuit<'_>, step: usize, net: u32) -> usize
    requires net { net < (job_in circuit.now).width }
    requires small { step * (job_in circuit.now).width + (job_in circuit.now).width ≤ 2 ^ 40 }
    ensures { result ≡ at (job_in circuit.now) step net }
{
    step * width_of(circuit) + circuit.order.position(net) as usize
}

fn one_place(circuit: &Circuit<'_>, step: usize, net: u32) -> ArgumentsByNumber
    requires net { net < (job_in circuit.now).width }
    requires small { step * (job_in circuit.now).width + (job_in circuit.now).width ≤ 2 ^ 40 }
    ensures { result ≡ at (job_in circuit.now) step net ∷ [] }
{
    let mut arguments = ArgumentsByNumber::new();
    arguments.push(number_at(circuit, step, net));
    arguments
}

fn born_places(circuit: &Circuit<'_>, place: usize, spot: Spot) -> ArgumentsByNumber
    requires spot { IsSpot (job_in circuit.now) place spot }
    ensures { result ≡ born_arguments (job_in circuit.now) spot.step spot.net }
{
    if circuit.begins_moment(spot.step) {
        ArgumentsByNumber::new()
    } else {
        one_place(circuit, spot.step - 1, spot.net as u32)
    }
}

fn pin_places(circuit: &Circuit<'_>, step: usize, pins: &[Pin]) -> ArgumentsByNumber
    requires nets { AllByRecursion (λ net. net < (job_in circuit.now).width) (net_pins pins.now) }
    requires few { length (net_pins pins.now) ≤ 13 }
    requires small { step * (job_in circuit.now).width + (job_in circuit.now).width ≤ 2 ^ 40 }
    ensures { result ≡ places_at (job_in circuit.now) step pins.now }
{
    let mut arguments = ArgumentsByNumber::new();
    push_places(circuit, &mut arguments, step, pins);
    arguments
}

fn push_places(circuit: &Circuit<'_>, arguments: &mut ArgumentsByNumber, step: usize, pins: &[Pin])
    requires nets { AllByRecursion (λ net. net < (job_in circuit.now).width) (net_pins pins.now) }
    requires room { length arguments.old + length (net_pins pins.now) ≤ 13 }
    requires small { step * (job_in circuit.now).width + (job_in circuit.now).width ≤ 2 ^ 40 }
    ensures { arguments.new ≡ arguments.old ++ places_at (job_in circuit.now) step pins.now }
{
    match pins {
        [] => {}
        [pin, rest @ ..] => {
            if let Pin::Net(net) = *pin {
                arguments.push(number_at(circuit, step, net));
            }
            push_places(circuit, arguments, step, rest)
        }
    }
}

fn register_places<C: Source>(
    circuit: &Circuit<'_>,
    certain: &C,
    place: usize,
    spot: Spot,
    latching: &Latching,
) -> ArgumentsByNumber
    requires spot { IsSpot (job_in circuit.now) place spot }
    requires register { FitsRegister (job_in circuit.now).udps (job_in circuit.now).width latching.now }
    requires certain { (k : ℕ) → k < place → C.has certain.now k }
    ensures { result ≡ register_arguments (job_in circuit.now) (C.reads certain.now) spot.step spot.net latching.now }
{
    if spot.step == 0 {
        ArgumentsByNumber::new()
    } else if clock_is_uncertain(circuit, certain, spot.step, latching) {
        ArgumentsByNumber::new()
    } else {
        looked_at(circuit, place, spot, latching)
    }
}

fn looked_at(
    circuit: &Circuit<'_>,
    place: usize,
    spot: Spot,
    latching: &Latching,
) -> ArgumentsByNumber
    requires spot { IsSpot (job_in circuit.now) place spot }
    requires later { 0 < spot.step }
    requires register { FitsRegister (job_in circuit.now).udps (job_in circuit.now).width latching.now }
    ensures { result ≡ looked_places (job_in circuit.now) spot.step spot.net latching.now }
{
    let pins = latching.pins.as_slice();
    let mut arguments = old_arguments(circuit, spot.step, pins);
    push_places(circuit, &mut arguments, spot.step - 1, pins);
    arguments.push(number_at(circuit, spot.step - 1, spot.net as u32));
    arguments
}

fn old_arguments(circuit: &Circuit<'_>, step: usize, pins: &[Pin]) -> ArgumentsByNumber
    requires nets { AllByRecursion (λ net. net < (job_in circuit.now).width) (net_pins pins.now) }
    requires few { length (net_pins pins.now) ≤ 6 }
    requires later { 0 < step }
    requires small { step * (job_in circuit.now).width + (job_in circuit.now).width ≤ 2 ^ 40 }
    ensures places { result ≡ old_places (job_in circuit.now) step pins.now }
    ensures few { length result ≤ 6 }
{
    match circuit.two_back(step) {
        None => ArgumentsByNumber::new(),
        Some(earlier) => pin_places(circuit, earlier, pins),
    }
}
