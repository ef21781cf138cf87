//! The lanes of a table over the lanes of its arguments: in each lane the value that the arguments choose there.

ghost use Rattle.std.specs.Prelude.{◌≡◌, ◌+◌, ◌*◌, ◌<◌, ◌≤◌, ◌^◌, length, slice_index_or, if◌then◌else◌};
ghost use Rattle.design_cell.specs.declared.value.Value.TheVariants.{X as Unknown};
ghost use Rattle.design_circuit.specs.World.{decided};
ghost use Rattle.decide_nodes.specs.Lanes.{HasLanes, in_lane};
ghost use Rattle.decide_nodes.specs.Choice.{number_at, value_at};

use crate::lane_bits::LaneBits;
use design_cell::Value;

/// The lanes of a table: in each lane the value whose number the arguments have there, or what the filling gives where
/// that is x.
pub fn table_lanes(arguments: &[LaneBits], values: &[Value], own: LaneBits) -> LaneBits
    requires few { length arguments.now ≤ 13 }
    requires long { length values.now ≡ 2 ^ length arguments.now }
    ensures { HasLanes result (λ lane. value_at values.now (number_at arguments.now lane) (in_lane own lane)) }
{
    part_lanes(arguments, values, own, 0, 1)
}

/// The same of the values whose numbers are a base and multiples of a weight: in each lane the bit of the first
/// argument chooses between those where it is 1 and those where it is 0.
fn part_lanes(
    arguments: &[LaneBits],
    values: &[Value],
    own: LaneBits,
    base: usize,
    weight: usize,
) -> LaneBits
    requires base { base < weight }
    requires small { length values.now ≤ 8192 }
    requires long { length values.now ≡ weight * 2 ^ length arguments.now }
    ensures { HasLanes result
        (λ lane. value_at values.now (base + weight * number_at arguments.now lane) (in_lane own lane)) }
{
    match arguments {
        [] => value_lanes(values[base], own),
        [first, others @ ..] => {
            let low = part_lanes(others, values, own, base, 2 * weight);
            let high = part_lanes(others, values, own, base + weight, 2 * weight);
            either(*first, high, low)
        }
    }
}

/// 0 or 1 in each lane, or what the filling gives.
fn value_lanes(value: Value, own: LaneBits) -> LaneBits
    ensures { HasLanes result (λ lane. decided value (in_lane own lane)) }
{
    match value {
        Value::Zero => LaneBits::zeros(),
        Value::One => LaneBits::ones(),
        Value::X => own,
        Value::Z => own,
    }
}

/// In each lane the bit of one of two, as a third one says.
fn either(which: LaneBits, one: LaneBits, zero: LaneBits) -> LaneBits
    ensures { HasLanes result (λ lane. if in_lane which lane then in_lane one lane else in_lane zero lane) }
{
    which.and(one).or(which.turned(true).and(zero))
}
