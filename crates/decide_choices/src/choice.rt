//! Choices of bits for some arguments, by numbers.

ghost use Rattle.std.specs.Prelude.{◌≡◌, ◌<◌};

use smallvec::SmallVec;

/// Bits for some arguments: bit k of `care` says whether argument k is chosen, bit k of `bits` is its bit.
#[derive(Clone, Copy, Debug, Default, PartialEq, Eq)]
pub struct Choice {
    pub care: u16,
    pub bits: u16,
}

/// Choices in order, up to eight of them in the place itself.
pub(crate) type Choices = SmallVec<Choice, 8>;

impl Choice {
    ghost use Rattle.decide_choices.specs.Choices.{IsAmong, bits_in, chosen_in};
    ghost use Rattle.decide_choices.specs.Halves.{with_argument};

    /// Whether an argument is chosen.
    pub fn has(&self, argument: usize) -> bool
        requires { argument < 16 }
        ensures { result ≡ chosen_in self.now argument }
    {
        (self.care >> argument) % 2 == 1
    }

    /// The bit of an argument, 0 where it isn't chosen.
    pub fn bit(&self, argument: usize) -> bool
        requires { argument < 16 }
        ensures { result ≡ bits_in self.now argument }
    {
        (self.bits >> argument) % 2 == 1
    }

    /// The choice of the same bits and a bit for the next argument.
    #[tactic(auto, using(crate::proofs::ChoiceBits::power_small))]
    pub(crate) fn with_argument(self, count: usize, last: bool) -> Choice
        requires few { count < 13 }
        requires among { IsAmong count self }
        ensures { result ≡ with_argument count last self }
    {
        let next: u16 = 1 << count;
        Choice {
            care: self.care + next,
            bits: if last { self.bits + next } else { self.bits },
        }
    }
}
