//! Bits of one part that are told together.

ghost use Rattle.std.specs.Prelude.{◌≡◌, ◌<◌, ◌-◌, ◌^◌, ◌==◌, ◌∷◌};
ghost use Rattle.std.specs.Int.{bit_at};
ghost use Rattle.elab_bits.specs.Runs as spec;

use design_circuit::Pin;

/// A bit of an expression: the byte of the part that it belongs to, and what it is.
#[derive(Clone, Copy)]
pub struct Lane {
    pub at: usize,
    pub pin: Pin,
}

/// What bits that are told together are.
#[derive(Clone, Copy)]
pub enum Bits {
    /// Nets that are numbered one behind the other, from this one on.
    Nets(u32),
    /// The lowest bits of a literal, the highest of them first.
    Literal(u128),
    /// Dead pins.
    Dead,
}

/// So many bits of the part at this byte.
#[derive(Clone, Copy)]
pub struct Run {
    pub at: usize,
    pub count: u32,
    pub bits: Bits,
}

impl Run {
    /// Takes the leftmost bit away.
    #[tactic(auto, using(crate::proofs::Running::leftmost_is))]
    pub fn take(&mut self) -> Lane
        requires some { 0 < self.old.count }
        requires few { spec.AreFew self.old.count self.old.bits }
        ensures lane { spec.run_lanes self.old ≡ result ∷ spec.run_lanes self.new }
        ensures few { spec.AreFew self.new.count self.new.bits }
        ensures count { self.new.count ≡ self.old.count - 1 }
    {
        let pin = leftmost(self.count, self.bits);
        self.bits = behind(self.count, self.bits);
        self.count -= 1;
        Lane { at: self.at, pin }
    }
}

/// The leftmost of so many bits.
fn leftmost(count: u32, bits: Bits) -> Pin
    requires { 0 < count }
    ensures { result ≡ spec.leftmost count bits }
{
    match bits {
        Bits::Nets(first) => Pin::Net(first),
        Bits::Literal(value) => Pin::Bit(has_bit(value, count - 1)),
        Bits::Dead => Pin::Dead,
    }
}

/// What stands behind the leftmost of so many bits.
fn behind(count: u32, bits: Bits) -> Bits
    requires some { 0 < count }
    requires few { spec.AreFew count bits }
    ensures bits { result ≡ spec.behind bits }
    ensures few { spec.AreFew (count - 1) result }
{
    match bits {
        Bits::Nets(first) => Bits::Nets(first + 1),
        Bits::Literal(value) => Bits::Literal(value),
        Bits::Dead => Bits::Dead,
    }
}

/// Whether a bit of a value is set, which those above its 128 are not.
fn has_bit(value: u128, index: u32) -> bool
    ensures { result ≡ (bit_at value index == 1) }
{
    if index < 128 {
        return (value >> index) % 2 == 1;
    }
    false
}
