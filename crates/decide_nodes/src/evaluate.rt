//! The lanes of nodes: in each of 256 lanes the bit of each node, from the bits that the sources are given there.

ghost use Rattle.std.specs.Prelude.{◌≡◌, ◌+◌, ◌<◌, ◌≤◌, ◌^◌, ◌&&◌, ◌==◌, length, map, if◌then◌else◌};
ghost use Rattle.std.specs.List.{AllByRecursion};
ghost use Rattle.design_circuit.specs.World.{decided};
ghost use Rattle.law_model.specs.Mask.{mask_of};
ghost use Rattle.law_model.specs.Node.{node_bit};
ghost use Rattle.decide_nodes.specs.Lanes.{IsLaneTable, HasLanes, in_lane, lane_of, root_in_lane};
ghost use Rattle.decide_nodes.specs.Nodes.{AreNodes, IsNodeTable, StandsAt, body_of, is_source_node, table_bit};

use crate::lane_bits::LaneBits;
use crate::lanes::lane_bits_at;
use crate::node::{Node, NodeBody};
use design_cell::Value;

/// The lanes of the root, where source i has given[i], or 0 where nothing is given.
pub fn root_lanes(
    nodes: &[Node],
    births: &[bool],
    given: &[LaneBits],
    lane_table: &mut [LaneBits],
) -> LaneBits
    requires nodes { AreNodes nodes.now }
    requires births { births.now ≡ map is_source_node nodes.now }
    requires room { length lane_table.old ≡ length nodes.now }
    ensures { HasLanes result (root_in_lane nodes.now given.now) }
{
    evaluate(nodes, births, given, lane_table);
    lane_table[nodes.len() - 1]
}

/// The lanes of all nodes.
fn evaluate(nodes: &[Node], births: &[bool], given: &[LaneBits], lane_table: &mut [LaneBits])
    requires nodes { AreNodes nodes.now }
    requires births { births.now ≡ map is_source_node nodes.now }
    requires room { length lane_table.old ≡ length nodes.now }
    ensures { IsLaneTable nodes.now given.now lane_table.new (length nodes.now) }
{
    let mut sources = 0;
    'nodes: for position in 0..nodes.len() {
        let own = lane_bits_at(given, sources);
        lane_table[position] = node_lanes(&nodes[position].body, &lane_table[..position], own);
        sources = counted(sources, births[position]);
    }
}

fn counted(sources: usize, is_source: bool) -> usize
    requires { sources < 2 ^ 27 }
    ensures { result ≡ sources + (if is_source then 1 else 0) }
{
    if is_source { sources + 1 } else { sources }
}

/// The lanes of a node, from the lanes of the nodes before it and the one that it is given if it is a source.
fn node_lanes(body: &NodeBody, lane_table: &[LaneBits], own: LaneBits) -> LaneBits
    requires { StandsAt (length lane_table.now) body.now }
    ensures { HasLanes result (λ lane. node_bit (lane_of lane_table.now lane) (in_lane own lane) (body_of body.now)) }
{
    match body {
        NodeBody::Carried { node, inverted } => lane_table[*node as usize].turned(*inverted),
        NodeBody::Rule { arguments, values } => {
            rule_lanes(arguments.as_slice(), values.as_slice(), lane_table, own)
        }
    }
}

/// The lanes of a table: in each lane the value whose number the arguments have there.
fn rule_lanes(
    arguments: &[u32],
    values: &[Value],
    lane_table: &[LaneBits],
    own: LaneBits,
) -> LaneBits
    requires { IsNodeTable (length lane_table.now) arguments.now values.now }
    ensures { HasLanes result
        (λ lane. table_bit arguments.now values.now (lane_of lane_table.now lane) (in_lane own lane)) }
{
    let mut lane_bits = LaneBits::zeros();
    'values: for (number, value) in values.iter().enumerate() {
        lane_bits = lane_bits.or(part_lanes(*value, arguments, number, lane_table, own));
    }
    lane_bits
}

/// What one value of the table adds.
fn part_lanes(
    value: Value,
    arguments: &[u32],
    number: usize,
    lane_table: &[LaneBits],
    own: LaneBits,
) -> LaneBits
    requires before { AllByRecursion (λ argument. argument < length lane_table.now) arguments.now }
    requires small { number < 2 ^ length arguments.now }
    ensures { HasLanes result
        (λ lane. (mask_of arguments.now (lane_of lane_table.now lane) == number) && decided value (in_lane own lane)) }
{
    match value {
        Value::Zero => LaneBits::zeros(),
        Value::One => lanes_at(arguments, number, lane_table),
        Value::X => lanes_at(arguments, number, lane_table).and(own),
        Value::Z => lanes_at(arguments, number, lane_table).and(own),
    }
}

/// The lanes in which the arguments have the bits of a number.
fn lanes_at(arguments: &[u32], number: usize, lane_table: &[LaneBits]) -> LaneBits
    requires before { AllByRecursion (λ argument. argument < length lane_table.now) arguments.now }
    requires small { number < 2 ^ length arguments.now }
    ensures { HasLanes result (λ lane. mask_of arguments.now (lane_of lane_table.now lane) == number) }
{
    let mut lanes = LaneBits::ones();
    let mut rest = number;
    'arguments: for argument in arguments {
        lanes = lanes.and(lane_table[*argument as usize].turned(rest % 2 == 0));
        rest /= 2;
    }
    lanes
}
