//! The values of pins, cells and registers, from the values of earlier places.

ghost use Rattle.std.specs.Prelude.{◌≡◌, ℕ, [], ◌∷◌, ◌+◌, ◌*◌, ◌<◌, ◌≤◌, ◌^◌, length, map, take, Bool};
ghost use Rattle.std.specs.List.{AllByRecursion};
ghost use Rattle.design_cell.specs.declared.value.Value.{Value as AnyValue};
ghost use Rattle.design_cell.specs.Value.{bit_value};
ghost use Rattle.design_circuit.specs.Circuit.{job_in, Reach};
ghost use Rattle.design_circuit.specs.Job.{at};
ghost use Rattle.design_circuit.specs.Order.{net_pins};
ghost use Rattle.design_circuit.specs.Register.{pin_of, pins_at};

use crate::circuit::Circuit;
use crate::design::Pin;
use crate::spot::width_of;
use design_cell::Value;

/// What has values at earlier places.
pub trait Source {
    ghost reads: { Self → ℕ → AnyValue };

    ghost has: { Self → ℕ → Type 0 };

    /// The value at the place of a number.
    fn value(&self, place: usize) -> Value
        requires { has self.now place }
        ensures { result ≡ reads self.now place };
}

/// What has bits at earlier places.
pub trait BitSource {
    ghost bits: { Self → ℕ → Bool };

    ghost has: { Self → ℕ → Type 0 };

    /// The bit at the place of a number.
    fn bit(&self, place: usize) -> bool
        requires { has self.now place }
        ensures { result ≡ bits self.now place };
}

/// Bits as values.
#[derive(Clone, Copy, Debug)]
pub struct AsValues<'a, B> {
    pub source: &'a B,
}

impl<'a, B: BitSource> Source for AsValues<'a, B> {
    ghost reads = { λ s place. bit_value (B.bits s.source.now place) };

    ghost has = { λ s place. B.has s.source.now place };

    fn value(&self, place: usize) -> Value {
        Value::from_bit(self.source.bit(place))
    }
}

/// The value of a net at a step.
pub fn net_value<S: Source>(circuit: &Circuit<'_>, source: &S, step: usize, net: u32) -> Value
    requires reach { Reach (job_in circuit.now) (S.has source.now) step net }
    requires small { step * (job_in circuit.now).width + (job_in circuit.now).width ≤ 2 ^ 40 }
    ensures { result ≡ S.reads source.now (at (job_in circuit.now) step net) }
{
    source.value(step * width_of(circuit) + circuit.order.position(net) as usize)
}

fn pin_value<S: Source>(circuit: &Circuit<'_>, source: &S, step: usize, pin: Pin) -> Value
    requires reach { AllByRecursion (Reach (job_in circuit.now) (S.has source.now) step) (net_pins (pin ∷ [])) }
    requires small { step * (job_in circuit.now).width + (job_in circuit.now).width ≤ 2 ^ 40 }
    ensures { result ≡ pin_of (λ net. S.reads source.now (at (job_in circuit.now) step net)) pin }
{
    match pin {
        Pin::Net(net) => net_value(circuit, source, step, net),
        Pin::Bit(bit) => Value::from_bit(bit),
        Pin::Dead => Value::X,
    }
}

/// The values at pins at a step, in the first places.
pub fn pin_values<S: Source>(
    circuit: &Circuit<'_>,
    source: &S,
    step: usize,
    pins: &[Pin],
) -> [Value; 10]
    requires few { length pins.now ≤ 10 }
    requires reach { AllByRecursion (Reach (job_in circuit.now) (S.has source.now) step) (net_pins pins.now) }
    requires small { step * (job_in circuit.now).width + (job_in circuit.now).width ≤ 2 ^ 40 }
    ensures long { length result ≡ 10 }
    ensures values { take (length pins.now) result ≡ pins_at (job_in circuit.now) (S.reads source.now) step pins.now }
{
    let mut values = [Value::X; 10];
    'pins: for (place, pin) in pins.iter().enumerate() {
        values[place] = pin_value(circuit, source, step, *pin);
    }
    values
}
