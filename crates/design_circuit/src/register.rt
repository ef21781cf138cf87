//! What a register makes of the pins that it looks back at.

ghost use Rattle.std.specs.Prelude.{◌≡◌, ℕ, ◌+◌, ◌-◌, ◌*◌, ◌<◌, ◌≤◌, ◌==◌, ◌&&◌, ◌^◌, length, take};
ghost use Rattle.std.specs.Int.{bit_at};
ghost use Rattle.design_cell.specs.Value.{is_unknown};
ghost use Rattle.design_cell.specs.declared.value.Value.{Value as AnyValue};
ghost use Rattle.design_cell.specs.Next.{next};
ghost use Rattle.design_circuit.specs.Circuit.{job_in};
ghost use Rattle.design_circuit.specs.Fits.{FitsRegister, FitsPrimitive};
ghost use Rattle.design_circuit.specs.Job.{primitive_of};
ghost use Rattle.design_circuit.specs.Register.{old_pins, new_pins, updated, hold_at, has_unknown_clock};
ghost use Rattle.design_circuit.specs.Register.{has_uncertain_clock, had_uncertain_clock};

use crate::circuit::Circuit;
use crate::design::{Latching, Pin};
use crate::reads::{Source, pin_values};
use crate::stim::Levels;
use design_cell::{Udp, Value};

/// The values at the pins two steps before, in the first places: before step 0 as the start rule says.
fn old_values<S: Source>(
    circuit: &Circuit<'_>,
    source: &S,
    step: usize,
    latching: &Latching,
) -> [Value; 10]
    requires register { FitsRegister (job_in circuit.now).udps (job_in circuit.now).width latching.now }
    requires later { 0 < step }
    requires has { (place : ℕ) → place < step * (job_in circuit.now).width → S.has source.now place }
    requires small { step * (job_in circuit.now).width ≤ 2 ^ 40 }
    ensures long { length result ≡ 10 }
    ensures values { take (length latching.now.pins) result ≡
        old_pins (job_in circuit.now) (S.reads source.now) step latching.now.pins }
{
    match circuit.two_back(step) {
        None => [Value::X; 10],
        Some(earlier) => pin_values(circuit, source, earlier, latching.pins.as_slice()),
    }
}

/// The values at the pins one step before, in the first places.
fn new_values<S: Source>(
    circuit: &Circuit<'_>,
    source: &S,
    step: usize,
    latching: &Latching,
) -> [Value; 10]
    requires register { FitsRegister (job_in circuit.now).udps (job_in circuit.now).width latching.now }
    requires later { 0 < step }
    requires has { (place : ℕ) → place < step * (job_in circuit.now).width → S.has source.now place }
    requires small { step * (job_in circuit.now).width ≤ 2 ^ 40 }
    ensures long { length result ≡ 10 }
    ensures values { take (length latching.now.pins) result ≡
        new_pins (job_in circuit.now) (S.reads source.now) step latching.now.pins }
{
    pin_values(circuit, source, step - 1, latching.pins.as_slice())
}

/// What a register keeps at a later step.
pub fn updated_value<S: Source>(
    circuit: &Circuit<'_>,
    source: &S,
    kept: Value,
    step: usize,
    latching: &Latching,
) -> Value
    requires register { FitsRegister (job_in circuit.now).udps (job_in circuit.now).width latching.now }
    requires later { 0 < step }
    requires has { (place : ℕ) → place < step * (job_in circuit.now).width → S.has source.now place }
    requires small { step * (job_in circuit.now).width ≤ 2 ^ 40 }
    ensures { result ≡ updated (job_in circuit.now) (S.reads source.now) kept step latching.now }
{
    let old = old_values(circuit, source, step, latching);
    let new = new_values(circuit, source, step, latching);
    let count = latching.pins.as_slice().len();
    udp_of(circuit, latching).next(latching.clocks, &old[..count], &new[..count], kept)
}

fn udp_of<'a>(circuit: &Circuit<'a>, latching: &Latching) -> &'a Udp
    requires register { FitsRegister (job_in circuit.now).udps (job_in circuit.now).width latching.now }
    ensures { result.now ≡ primitive_of (job_in circuit.now).udps latching.now.udp }
{
    &circuit.design.udps.as_slice()[latching.udp as usize]
}

/// The bit at which the pins one step back hold a register whatever its state is, else x.
pub fn hold_value<S: Source>(
    circuit: &Circuit<'_>,
    source: &S,
    step: usize,
    latching: &Latching,
) -> Value
    requires register { FitsRegister (job_in circuit.now).udps (job_in circuit.now).width latching.now }
    requires later { 0 < step }
    requires has { (place : ℕ) → place < step * (job_in circuit.now).width → S.has source.now place }
    requires small { step * (job_in circuit.now).width ≤ 2 ^ 40 }
    ensures { result ≡ hold_at (job_in circuit.now) (S.reads source.now) step latching.now }
{
    let new = new_values(circuit, source, step, latching);
    let count = latching.pins.as_slice().len();
    udp_of(circuit, latching).hold(&new[..count])
}

/// Whether a clock pin isn't certain where the register looks back at it.
pub fn clock_is_uncertain<S: Source>(
    circuit: &Circuit<'_>,
    certain: &S,
    step: usize,
    latching: &Latching,
) -> bool
    requires register { FitsRegister (job_in circuit.now).udps (job_in circuit.now).width latching.now }
    requires later { 0 < step }
    requires has { (place : ℕ) → place < step * (job_in circuit.now).width → S.has certain.now place }
    requires small { step * (job_in circuit.now).width ≤ 2 ^ 40 }
    ensures { result ≡ has_uncertain_clock (job_in circuit.now) (S.reads certain.now) step latching.now }
{
    let old = old_values(circuit, certain, step, latching);
    let new = new_values(circuit, certain, step, latching);
    let count = latching.pins.as_slice().len();
    let old_unknown = clock_is_unknown(latching.clocks, &old[..count]);
    let new_unknown = clock_is_unknown(latching.clocks, &new[..count]);
    old_unknown || new_unknown
}

/// The same, and where levels hold registers also where it looked back one step before.
pub fn clock_was_uncertain<S: Source>(
    circuit: &Circuit<'_>,
    certain: &S,
    step: usize,
    latching: &Latching,
) -> bool
    requires register { FitsRegister (job_in circuit.now).udps (job_in circuit.now).width latching.now }
    requires later { 1 < step }
    requires has { (place : ℕ) → place < step * (job_in circuit.now).width → S.has certain.now place }
    requires small { step * (job_in circuit.now).width ≤ 2 ^ 40 }
    ensures { result ≡ had_uncertain_clock (job_in circuit.now) (S.reads certain.now) step latching.now }
{
    let here = clock_is_uncertain(circuit, certain, step, latching);
    match circuit.stim.rules.levels {
        Levels::Change => here,
        Levels::Hold => {
            let before = clock_before_is_uncertain(circuit, certain, step, latching);
            here || before
        }
    }
}

fn clock_before_is_uncertain<S: Source>(
    circuit: &Circuit<'_>,
    certain: &S,
    step: usize,
    latching: &Latching,
) -> bool
    requires register { FitsRegister (job_in circuit.now).udps (job_in circuit.now).width latching.now }
    requires later { 1 < step }
    requires has { (place : ℕ) → place < step * (job_in circuit.now).width → S.has certain.now place }
    requires small { step * (job_in circuit.now).width ≤ 2 ^ 40 }
    ensures { result ≡ has_uncertain_clock (job_in circuit.now) (S.reads certain.now) (step - 1) latching.now }
{
    clock_is_uncertain(circuit, certain, step - 1, latching)
}

fn clock_is_unknown(clocks: u16, values: &[Value]) -> bool
    requires { length values.now ≤ 10 }
    ensures { result ≡ has_unknown_clock clocks values.now }
{
    let mut any = false;
    'pins: for (pin, value) in values.iter().enumerate() {
        any = any || is_unknown_at(clocks, pin, *value);
    }
    any
}

fn is_unknown_at(clocks: u16, pin: usize, value: Value) -> bool
    requires { pin < 16 }
    ensures { result ≡ ((bit_at clocks pin == 1) && is_unknown value) }
{
    clocks >> pin & 1 == 1 && !value.is_known()
}
