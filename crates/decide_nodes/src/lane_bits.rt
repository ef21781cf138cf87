//! The bits of 256 lanes.

ghost use Rattle.std.specs.Prelude.{◌≡◌, ◌<◌, ◌&&◌, ◌||◌, MatchOption, false, true, length};
ghost use Rattle.law_model.specs.Class.{flipped};
ghost use Rattle.decide_nodes.specs.Lanes.{HasLanes, HasNone, IsOne, equal_bits, in_lane};

use std::marker::Model;

/// A bit for each of 256 lanes, in four parts of 64. Contracts see the parts.
#[derive(Clone, Copy, Debug, PartialEq, Eq)]
pub struct LaneBits {
    parts: [u64; 4],
}

impl Model for LaneBits {
    ghost use Rattle.std.specs.Prelude.{List, ℕ};

    ghost Value = { List ℕ };

    ghost view = { λ lane_bits. lane_bits.parts };

    ghost inverse = { λ parts. record { parts = parts } };
}

impl LaneBits {
    /// The lanes that have bit l % 64 of part l / 64 in lane l.
    pub fn new(parts: [u64; 4]) -> LaneBits
        ensures { result ≡ parts }
    {
        LaneBits { parts }
    }

    /// The lanes with 0 in each lane.
    pub fn zeros() -> LaneBits
        ensures { HasLanes result (λ lane. false) }
    {
        LaneBits { parts: [0; 4] }
    }

    /// The lanes with 1 in each lane.
    pub fn ones() -> LaneBits
        ensures { HasLanes result (λ lane. true) }
    {
        LaneBits {
            parts: [u64::MAX; 4],
        }
    }

    /// The bit in a lane.
    pub fn in_lane(self, lane: u32) -> bool
        requires { lane < 256 }
        ensures { result ≡ in_lane self lane }
    {
        (self.parts[lane as usize / 64] >> (lane % 64)) & 1 == 1
    }

    /// 1 where both have it.
    pub fn and(self, other: LaneBits) -> LaneBits
        ensures { HasLanes result (λ lane. in_lane self lane && in_lane other lane) }
    {
        LaneBits {
            parts: [
                self.parts[0] & other.parts[0],
                self.parts[1] & other.parts[1],
                self.parts[2] & other.parts[2],
                self.parts[3] & other.parts[3],
            ],
        }
    }

    /// 1 where one of them has it.
    pub fn or(self, other: LaneBits) -> LaneBits
        ensures { HasLanes result (λ lane. in_lane self lane || in_lane other lane) }
    {
        LaneBits {
            parts: [
                self.parts[0] | other.parts[0],
                self.parts[1] | other.parts[1],
                self.parts[2] | other.parts[2],
                self.parts[3] | other.parts[3],
            ],
        }
    }

    /// A lane in which the bits have a 1.
    pub fn first(self) -> Option<u32>
        ensures { MatchOption result (HasNone self) (IsOne self) }
    {
        first_in(&self.parts)
    }

    /// The lanes, or their complement.
    pub fn turned(self, inverted: bool) -> LaneBits
        ensures { HasLanes result (λ lane. flipped inverted (in_lane self lane)) }
    {
        let mask = equal_bits(inverted);
        LaneBits {
            parts: [
                self.parts[0] ^ mask,
                self.parts[1] ^ mask,
                self.parts[2] ^ mask,
                self.parts[3] ^ mask,
            ],
        }
    }
}

/// 1 in each bit, or 0 in each.
fn equal_bits(is_one: bool) -> u64
    ensures { result ≡ equal_bits is_one }
{
    if is_one { u64::MAX } else { 0 }
}

/// The lane of the lowest 1 of four parts.
fn first_in(parts: &[u64]) -> Option<u32>
    requires { length parts.now ≡ 4 }
    ensures { MatchOption result (HasNone parts.now) (IsOne parts.now) }
{
    'parts: for part in 0..4 {
        let bits = parts[part as usize];
        if bits != 0 {
            return Some(64 * part + bits.trailing_zeros());
        }
    }
    None
}
