//! The bits of bound variables at the moments of a stimulus, one after the other in the order of a report: moment by
//! moment, variable by variable, and from the left. The walk takes no memory.

ghost use Rattle.std.specs.Prelude.{◌≡◌, ◌+◌, ◌<◌, ◌≤◌, ◌^◌, [], ◌∷◌, All, IfNone, IfSome, length};
ghost use Rattle.std.proofs.Props.{props};
ghost use Rattle.recording_binding.specs.Binding.{HasBits};

use crate::binding::Bound;
use design_circuit::Stim;

/// A bit of a bound variable in a moment.
#[derive(Clone, Copy, Debug, PartialEq, Eq)]
pub struct BoundBit {
    pub moment: u32,
    /// The number of its variable in the recording.
    pub variable: u32,
    /// How many bits of the variable stand on its left.
    pub bit: u32,
    pub net: u32,
}

/// A walk over the bits of bound variables.
#[derive(Drop)]
pub struct BoundBits<'a> {
    bound: &'a [Bound],
    moment: u32,
    /// How many moments come after this one.
    more: u32,
    /// How many variables of the moment were begun.
    begun: usize,
    /// The variable in hand, how many of its bits were given, and the nets of the others.
    variable: u32,
    bit: u32,
    nets: &'a [u32],
    ghost bits: { All HasBits bound.now } by { Prim.hlevel props },
    ghost few_bits: { bit + length nets.now ≤ 2 ^ 20 },
    ghost few_moments: { moment + more < 2 ^ 28 },
    ghost within: { begun ≤ length bound.now },
}

impl<'a> BoundBits<'a> {
    ghost use Rattle.recording_binding.specs.BoundBits.{bound_bits, left_of};

    /// The walk over all bits of these variables in all moments.
    pub fn new(stim: &Stim, bound: &'a [Bound]) -> BoundBits<'a>
        requires { All HasBits bound.now }
        ensures { left_of result ≡ bound_bits (length stim.now.times) bound.now }
    {
        BoundBits {
            bound,
            moment: 0,
            more: stim.times.as_slice().len() as u32 - 1,
            begun: 0,
            variable: 0,
            bit: 0,
            nets: &[],
        }
    }

    /// The next bit, if one is left.
    pub fn next(&mut self) -> Option<BoundBit>
        ensures bit { IfSome result (λ bit. left_of self.old ≡ bit ∷ left_of self.new) }
        ensures end { IfNone result (left_of self.old ≡ []) }
    {
        if self.nets.is_empty() {
            self.begin_variable();
        }
        match self.nets {
            [] => None,
            [net, rest @ ..] => {
                let bit = BoundBit {
                    moment: self.moment,
                    variable: self.variable,
                    bit: self.bit,
                    net: *net,
                };
                self.nets = rest;
                self.bit += 1;
                Some(bit)
            }
        }
    }

    /// Takes the next variable in hand, if one is left.
    fn begin_variable(&mut self)
        requires { length self.old.nets.now ≡ 0 }
        ensures same { left_of self.new ≡ left_of self.old }
        ensures end { self.new.nets.now ≡ [] → left_of self.new ≡ [] }
    {
        if self.begun == self.bound.len() {
            self.begin_moment();
        }
        if self.begun < self.bound.len() {
            let variable = &self.bound[self.begun];
            self.begun += 1;
            self.variable = variable.variable;
            self.bit = 0;
            self.nets = variable.bits.as_slice();
        }
    }

    /// Goes to the next moment, if one is left.
    fn begin_moment(&mut self)
        requires nets { length self.old.nets.now ≡ 0 }
        requires begun { self.old.begun ≡ length self.old.bound.now }
        ensures same { left_of self.new ≡ left_of self.old }
        ensures nets { length self.new.nets.now ≡ 0 }
        ensures end { self.new.begun ≡ length self.new.bound.now → left_of self.new ≡ [] }
    {
        if self.more > 0 {
            self.more -= 1;
            self.moment += 1;
            self.begun = 0;
        }
    }
}
