//! The bits of the 512 lanes of a pool.

use crate::reads::{item_at, set_item};

/// How many parts the lanes have.
pub(crate) const PARTS: usize = 8;

/// A lane: its part, and in that part its bit alone.
#[derive(Clone, Copy)]
pub(crate) struct PoolLane {
    pub(crate) part: usize,
    pub(crate) mark: u64,
}

/// A bit for each of 512 lanes, in eight parts of 64.
#[derive(Clone, Copy)]
pub(crate) struct PoolBits {
    parts: [u64; 8],
}

impl PoolBits {
    pub(crate) fn new(parts: [u64; 8]) -> PoolBits {
        PoolBits { parts }
    }

    /// The bit in each lane.
    pub(crate) fn all(bit: bool) -> PoolBits {
        PoolBits {
            parts: [equal_bits(bit); 8],
        }
    }

    /// 1 where both have it, the other ones as they are or turned.
    pub(crate) fn and(self, other: PoolBits, turned: bool) -> PoolBits {
        let mask = equal_bits(turned);
        let a = self.parts;
        let b = other.parts;
        PoolBits {
            parts: [
                a[0] & (b[0] ^ mask),
                a[1] & (b[1] ^ mask),
                a[2] & (b[2] ^ mask),
                a[3] & (b[3] ^ mask),
                a[4] & (b[4] ^ mask),
                a[5] & (b[5] ^ mask),
                a[6] & (b[6] ^ mask),
                a[7] & (b[7] ^ mask),
            ],
        }
    }

    /// 1 where one of them has it.
    pub(crate) fn or(self, other: PoolBits) -> PoolBits {
        let a = self.parts;
        let b = other.parts;
        PoolBits {
            parts: [
                a[0] | b[0],
                a[1] | b[1],
                a[2] | b[2],
                a[3] | b[3],
                a[4] | b[4],
                a[5] | b[5],
                a[6] | b[6],
                a[7] | b[7],
            ],
        }
    }

    /// The bit in a lane.
    pub(crate) fn in_lane(&self, lane: PoolLane) -> bool {
        item_at(&self.parts, lane.part, 0) & lane.mark != 0
    }

    /// Another bit in a lane.
    pub(crate) fn set_lane(&mut self, lane: PoolLane, bit: bool) {
        let old = item_at(&self.parts, lane.part, 0);
        let new = if bit {
            old | lane.mark
        } else {
            old & !lane.mark
        };
        set_item(&mut self.parts, lane.part, new);
    }

    /// Other bits in a part.
    pub(crate) fn set_part(&mut self, part: usize, bits: u64) {
        set_item(&mut self.parts, part, bits);
    }

    /// The first lane that has a bit.
    pub(crate) fn first(&self, bit: bool) -> Option<PoolLane> {
        let mask = equal_bits(!bit);
        'parts: for part in 0..PARTS {
            let bits = item_at(&self.parts, part, mask) ^ mask;
            if bits != 0 {
                let mark = bits & bits.wrapping_neg();
                return Some(PoolLane { part, mark });
            }
        }
        None
    }
}

/// 1 in each bit, or 0 in each.
pub(crate) fn equal_bits(is_one: bool) -> u64 {
    if is_one { u64::MAX } else { 0 }
}
