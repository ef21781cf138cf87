//! Ones counted in all lanes at once, in binary. No contract says what the counts are: they choose among lanes that
//! serve equally, so that lines are short.

ghost use Rattle.decide_lanes.specs.Pairs.{AreAmong};

use decide_nodes::LaneBits;

/// How many digits a count has. Higher ones are dropped.
const DIGITS: usize = 11;

/// A count for each lane: its digit d, from the lowest on, is the bit of the lane in digits[d].
#[derive(Drop)]
pub struct Counts {
    digits: [LaneBits; 11],
}

impl Counts {
    /// Each count is 0.
    pub fn new() -> Counts {
        Counts {
            digits: [LaneBits::zeros(); 11],
        }
    }

    /// Adds 1 to the count of each lane that has a 1.
    pub fn add(&mut self, ones: LaneBits) {
        let mut carried = ones;
        'digits: for digit in 0..DIGITS {
            if carried.first().is_none() {
                return;
            }
            let old = self.digits[digit];
            self.digits[digit] = either(old, carried);
            carried = old.and(carried);
        }
    }

    /// Those of some lanes whose count is the least.
    pub fn least(&self, lanes: LaneBits) -> LaneBits
        ensures { AreAmong result lanes }
    {
        let mut least = lanes;
        'digits: for digit in 0..DIGITS {
            least = without(least, self.digits[DIGITS - 1 - digit]);
        }
        least
    }
}

/// Some lanes without those that have a 1, if any are left, else all of them.
fn without(lanes: LaneBits, ones: LaneBits) -> LaneBits
    ensures { AreAmong result lanes }
{
    let lower = lanes.and(ones.turned(true));
    match lower.first() {
        Some(_) => lower,
        None => lanes,
    }
}

/// 1 where one of them has it, and not both.
fn either(some: LaneBits, others: LaneBits) -> LaneBits {
    some.or(others).and(some.and(others).turned(true))
}
