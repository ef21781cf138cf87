//! Which nets keep at a step, and which places pass their net's bit on.

ghost use Rattle.std.specs.Prelude.{◌≡◌, ℕ, ◌+◌, ◌-◌, ◌*◌, ◌^◌, ◌<◌, ◌≤◌, ◌%◌, ◌==◌, ◌&&◌, not, nat_lt};
ghost use Rattle.std.specs.List.{AllByRecursion, list_all, list_any};
ghost use Rattle.design_cell.specs.declared.value.Value.{Value as AnyValue};
ghost use Rattle.design_circuit.specs.Circuit.{job_in, IsSpot, Reach};
ghost use Rattle.design_circuit.specs.Fits.{FitsDriver, FitsRegister, Standing, is_dead};
ghost use Rattle.design_circuit.specs.Job.{at, places_of, step_of};
ghost use Rattle.design_circuit.specs.Order.{arguments_of_driver, net_pins};
ghost use Rattle.design_circuit.specs.Register.{had_uncertain_clock};
ghost use Rattle.law_model.specs.Class.{are_equal, before, class_of, is_never_unknown, keeps, passes_on, passes_on_of};
ghost use Rattle.design_circuit.specs.declared.design.Driver.TheVariants.{Cell};
ghost use Rattle.wave_class.specs.Facts.{keeps_since};
ghost use Rattle.wave_class.specs.Keeps.{cell_chooses, cell_passes, driver_passes, net_keeps, nets_keep, place_passes};
ghost use Rattle.wave_class.specs.Keeps.{register_passes};

use crate::asked::{Asked, Uncertain};
use crate::earlier::Earlier;
use crate::every::passes_every;
use crate::ruled::number_at;
use crate::test::Test;
use design_cell::Value;
use design_circuit::{
    Circuit, Driver, Latching, Pin, Source, Spot, Table, clock_was_uncertain, driver_at,
    recorded_at, spot_of, width_of,
};

/// Whether a place passes its net's bit on.
pub fn passes_on<E: Earlier>(uncertain: &Uncertain<'_, E>) -> bool
    ensures { let asked = uncertain.now.asked.now in
        result ≡ place_passes (job_in asked.circuit.now) (E.reads asked.earlier.now) asked.place }
{
    let asked = uncertain.asked;
    let spot = spot_of(asked.circuit, asked.place);
    driver_passes(uncertain, spot, driver_at(asked.circuit, spot.net))
}

fn driver_passes<E: Earlier>(uncertain: &Uncertain<'_, E>, spot: Spot, driver: &Driver) -> bool
    requires spot { let asked = uncertain.now.asked.now in IsSpot (job_in asked.circuit.now) asked.place spot }
    requires driver { let j = job_in uncertain.now.asked.now.circuit.now in FitsDriver j.udps j.width driver.now }
    requires is { (job_in uncertain.now.asked.now.circuit.now).driver spot.net ≡ driver.now }
    requires before { let j = job_in uncertain.now.asked.now.circuit.now in
        Standing j spot.position (arguments_of_driver driver.now) }
    ensures { let asked = uncertain.now.asked.now in
        result ≡ driver_passes (job_in asked.circuit.now) (E.reads asked.earlier.now) asked.place spot.step spot.net
        driver.now }
{
    let asked = uncertain.asked;
    match driver {
        Driver::Input => {
            let unknown = !recorded_at(asked.circuit, spot.step, spot.net).is_known();
            is_later_round(asked.circuit, spot) && unknown
        }
        Driver::Undriven => is_later_round(asked.circuit, spot),
        Driver::Constant(_) => false,
        Driver::Copy(net) => net_keeps(asked, spot.step, *net),
        Driver::Cell(table, pins) => cell_passes(uncertain, spot, *table, pins.as_slice()),
        Driver::Register(latching) => register_passes(asked, spot, latching),
    }
}

fn is_later_round(circuit: &Circuit<'_>, spot: Spot) -> bool
    ensures { result ≡ not (spot.step % (job_in circuit.now).rounds == 0) }
{
    !circuit.begins_moment(spot.step)
}

fn cell_passes<E: Earlier>(
    uncertain: &Uncertain<'_, E>,
    spot: Spot,
    table: Table,
    pins: &[Pin],
) -> bool
    requires spot { let asked = uncertain.now.asked.now in IsSpot (job_in asked.circuit.now) asked.place spot }
    requires is { (job_in uncertain.now.asked.now.circuit.now).driver spot.net ≡ Cell table pins.now }
    requires before { Standing (job_in uncertain.now.asked.now.circuit.now) spot.position (net_pins pins.now) }
    ensures { let asked = uncertain.now.asked.now in
        result ≡ cell_passes (job_in asked.circuit.now) (E.reads asked.earlier.now) asked.place spot.step pins.now }
{
    if spot.step == 0 {
        return false;
    }
    if !pins_keep(uncertain.asked, spot.step, pins) {
        return false;
    }
    if !cell_chooses(table, pins) {
        return true;
    }
    passes_every(uncertain, Test::Known)
}

/// Whether the place of a cell reads its filling.
pub fn cell_chooses(table: Table, pins: &[Pin]) -> bool
    ensures { result ≡ cell_chooses table pins.now }
{
    match table {
        Table::Gate(_) => has_dead(pins),
        Table::Udp(_) => true,
    }
}

fn has_dead(pins: &[Pin]) -> bool
    ensures { result ≡ list_any is_dead pins.now }
{
    match pins {
        [] => false,
        [Pin::Dead, ..] => true,
        [_, rest @ ..] => has_dead(rest),
    }
}

fn register_passes<E: Earlier>(asked: &Asked<'_, E>, spot: Spot, latching: &Latching) -> bool
    requires spot { IsSpot (job_in asked.now.circuit.now) asked.now.place spot }
    requires register { let j = job_in asked.now.circuit.now in FitsRegister j.udps j.width latching.now }
    ensures { let asked = asked.now in
        result ≡ register_passes (job_in asked.circuit.now) (E.reads asked.earlier.now) spot.step latching.now }
{
    if spot.step <= 1 {
        return false;
    }
    if clock_was_uncertain(asked.circuit, asked.earlier, spot.step, latching) {
        return false;
    }
    pins_keep(asked, spot.step - 1, latching.pins.as_slice())
}

/// Whether the nets of pins all keep at a step.
fn pins_keep<E: Earlier>(asked: &Asked<'_, E>, step: usize, pins: &[Pin]) -> bool
    requires nets { let asked = asked.now in
        AllByRecursion (Reach (job_in asked.circuit.now) (λ k. k < asked.place) step) (net_pins pins.now) }
    requires small { let j = job_in asked.now.circuit.now in step * j.width + j.width ≤ 2 ^ 40 }
    ensures { let asked = asked.now in
        result ≡ nets_keep (job_in asked.circuit.now) (E.reads asked.earlier.now) step (net_pins pins.now) }
{
    match pins {
        [] => true,
        [Pin::Net(net), rest @ ..] => net_keeps(asked, step, *net) && pins_keep(asked, step, rest),
        [_, rest @ ..] => pins_keep(asked, step, rest),
    }
}

/// Whether a net keeps at a step, where its place stands before the one that is asked.
fn net_keeps<E: Earlier>(asked: &Asked<'_, E>, step: usize, net: u32) -> bool
    requires net { let asked = asked.now in Reach (job_in asked.circuit.now) (λ k. k < asked.place) step net }
    requires small { let j = job_in asked.now.circuit.now in step * j.width + j.width ≤ 2 ^ 40 }
    ensures { let asked = asked.now in
        result ≡ net_keeps (job_in asked.circuit.now) (E.reads asked.earlier.now) step net }
{
    asked.earlier.keeps(number_at(asked.circuit, step, net))
}

/// Whether a net keeps at a place, given its certain value there and whether its class is Carried from the step before,
/// as it is.
pub fn keeps_here<C: Source>(
    circuit: &Circuit<'_>,
    certain: &C,
    place: usize,
    here: Value,
    carries: bool,
) -> bool
    requires within { place < places_of (job_in circuit.now) }
    requires certain { (k : ℕ) → k < place → C.has certain.now k }
    ensures { result ≡ keeps_since (job_in circuit.now) (C.reads certain.now) place here carries }
{
    let width = width_of(circuit);
    place >= width && (are_equal(here, certain.value(place - width)) || carries)
}

fn are_equal(x: Value, y: Value) -> bool
    ensures { result ≡ are_equal x y }
{
    match x {
        Value::Zero => matches!(y, Value::Zero),
        Value::One => matches!(y, Value::One),
        Value::X => false,
        Value::Z => false,
    }
}

/// The place of the same net a step before.
pub fn place_before(circuit: &Circuit<'_>, place: usize) -> usize
    requires within { place < places_of (job_in circuit.now) }
    ensures { result ≡ before (job_in circuit.now) place }
{
    let width = width_of(circuit);
    if place < width { place } else { place - width }
}
