//! The lane of a 1 in lanes.

ghost use Rattle.std.specs.Prelude.{◌≡◌, ◌≤◌, ◌==◌, MatchOption, count_ones};
ghost use Rattle.decide_nodes.specs.Lanes.{HasLanes, HasNone};
ghost use Rattle.decide_pair.specs.Pairs.{IsLeast};

use decide_nodes::LaneBits;

/// A lane in which the bits have a 1, of these one whose number has the least ones.
pub fn least_lane(lane_bits: LaneBits) -> Option<u32>
    ensures { MatchOption result (HasNone lane_bits) (IsLeast lane_bits) }
{
    'counts: for count in 0..9 {
        match lane_bits.and(lanes_with(count)).first() {
            Some(lane) => return Some(lane),
            None => {}
        }
    }
    None
}

/// 1 in the lanes whose numbers have so many ones.
fn lanes_with(count: u32) -> LaneBits
    requires { count ≤ 8 }
    ensures { HasLanes result (λ lane. count_ones lane == count) }
{
    match count {
        0 => LaneBits::new([1, 0, 0, 0]),
        1 => LaneBits::new([0x0000_0001_0001_0116, 1, 1, 0]),
        2 => LaneBits::new([
            0x0001_0116_0116_1668,
            0x0000_0001_0001_0116,
            0x0000_0001_0001_0116,
            1,
        ]),
        3 => LaneBits::new([
            0x0116_1668_1668_6880,
            0x0001_0116_0116_1668,
            0x0001_0116_0116_1668,
            0x0000_0001_0001_0116,
        ]),
        4 => LaneBits::new([
            0x1668_6880_6880_8000,
            0x0116_1668_1668_6880,
            0x0116_1668_1668_6880,
            0x0001_0116_0116_1668,
        ]),
        5 => LaneBits::new([
            0x6880_8000_8000_0000,
            0x1668_6880_6880_8000,
            0x1668_6880_6880_8000,
            0x0116_1668_1668_6880,
        ]),
        6 => LaneBits::new([
            0x8000_0000_0000_0000,
            0x6880_8000_8000_0000,
            0x6880_8000_8000_0000,
            0x1668_6880_6880_8000,
        ]),
        7 => LaneBits::new([
            0,
            0x8000_0000_0000_0000,
            0x8000_0000_0000_0000,
            0x6880_8000_8000_0000,
        ]),
        _ => LaneBits::new([0, 0, 0, 0x8000_0000_0000_0000]),
    }
}
