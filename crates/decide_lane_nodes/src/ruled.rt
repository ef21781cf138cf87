//! The lanes of a place that isn't carried: in each of them the value of its table that its arguments choose there.

ghost use Rattle.std.specs.Prelude.{◌≡◌, ◌≤◌, ◌^◌, length};
ghost use Rattle.std.specs.List.{AllByRecursion};
ghost use Rattle.law_model.specs.Mask.{mask_of};
ghost use Rattle.decide_nodes.specs.Lanes.{HasLanes, in_lane};
ghost use Rattle.decide_lane_nodes.specs.Covered.{IsCovered, covered_bit, table_bit};

use crate::literal::{Covered, lanes_at};
use decide_nodes::LaneBits;
use design_cell::Value;

/// The lanes of a table over some arguments.
pub fn table_lanes(
    covered: Covered<'_>,
    arguments: &[usize],
    values: &[Value],
    own: LaneBits,
) -> LaneBits
    requires covered { AllByRecursion (IsCovered covered) arguments.now }
    requires few { length arguments.now ≤ 13 }
    requires long { length values.now ≡ 2 ^ length arguments.now }
    ensures { HasLanes result
        (λ lane. table_bit values.now (mask_of arguments.now (covered_bit covered.entry lane)) (in_lane own lane)) }
{
    let mut given = [LaneBits::zeros(); 13];
    'arguments: for (index, place) in arguments.iter().enumerate() {
        given[index] = lanes_at(covered, *place);
    }
    decide_nodes::table_lanes(&given[..arguments.len()], values, own)
}
