//! The node of a place that isn't carried, by its table from the nodes of its arguments.

ghost use Rattle.std.specs.Prelude.{◌≡◌, ◌<◌, false, IfOk, IfSome, OnOk, length, map};
ghost use Rattle.std.specs.List.{AllByRecursion};
ghost use Rattle.law_model.specs.Cone.{is_carried};
ghost use Rattle.wave_proved.specs.Contents.{class_in};
ghost use Rattle.decide_nodes.specs.Lanes.{HasLanes};
ghost use Rattle.decide_lane_nodes.specs.InWave.{IsInReach, IsRuleIn, CoversBeforeIn, bit_in_lane};
ghost use Rattle.decide_lane_nodes.specs.Covered.{AreBefore, HasOwnNode, IsCovered, covered_root};
ghost use Rattle.decide_lane_nodes.specs.Nodes.{with_node};
ghost use Rattle.decide_lane_nodes.specs.Made.{AreRootsIn, AreSourcesIn, IsMadeNode, IsOwnRoot, listed_in, with_made};

use crate::fillings::given;
use crate::literal::{Covered, literal_at};
use crate::nodes::Nodes;
use crate::ruled::table_lanes;
use crate::sources::{any_unknown, joined, sharing, with_own};
use base_lists::Memory;
use decide_graph::{NodeRoot, TracedBody, trace_place};
use decide_nodes::{LaneBits, Values};
use design_cell::Value;
use std::alloc::Global;
use wave_proved::Wave;

/// A node that is to come in: its place, its bits in the lanes, its sources, where they are kept, or a node that has
/// the same ones, and for the graph the roots of its essential arguments and its table over these.
#[derive(Drop)]
pub struct Made {
    pub place: usize,
    pub lane_bits: LaneBits,
    pub sources: Option<Vec<u32>>,
    pub sharing: Option<usize>,
    pub roots: Vec<NodeRoot>,
    pub values: Values,
}

/// The node of a place that is written, or of the next one, and that isn't carried, from the literals of the places
/// before it. Works in a room that is lent. Takes 4 bytes a source, 8 an argument, and a byte for each value of the
/// table where they are more than 16.
pub fn make_node(
    alloc: Global,
    wave: &Wave<'_>,
    covered: Covered<'_>,
    place: usize,
    room: &mut Vec<Value>,
) -> Result<Made, Memory>
    requires reach { IsInReach wave.now place }
    requires free { is_carried (class_in wave.now place) ≡ false }
    requires covered { CoversBeforeIn wave.now covered place }
    requires before { AreBefore covered place }
    ensures { IfOk result (IsMadeNode wave.now covered.entry place) }
{
    match trace_place(alloc, wave, place, room)? {
        TracedBody::Rule(arguments, values) => make_ruled(
            alloc,
            wave,
            covered,
            place,
            arguments.as_slice(),
            values,
        ),
        TracedBody::Carried(_, _) => unreachable!(),
    }
}

fn make_ruled(
    alloc: Global,
    wave: &Wave<'_>,
    covered: Covered<'_>,
    place: usize,
    arguments: &[usize],
    values: Values,
) -> Result<Made, Memory>
    requires reach { IsInReach wave.now place }
    requires rule { IsRuleIn wave.now place arguments.now values }
    requires covered { CoversBeforeIn wave.now covered place }
    requires before { AreBefore covered place }
    ensures { IfOk result (IsMadeNode wave.now covered.entry place) }
{
    wave.recall();
    let table = values.as_slice();
    let roots = rule_roots(alloc, wave, covered, place, arguments, table)?;
    let lane_bits = rule_lanes(wave, covered, place, arguments, table);
    let sources = rule_sources(alloc, wave, covered, place, arguments, table)?;
    let sharing = match &sources {
        Some(list) => sharing(covered, arguments, list.as_slice()),
        None => None,
    };
    Ok(Made {
        place,
        lane_bits,
        sources,
        sharing,
        roots,
        values,
    })
}

/// The bits of a place in the lanes; it is its own root.
fn rule_lanes(
    wave: &Wave<'_>,
    covered: Covered<'_>,
    place: usize,
    arguments: &[usize],
    values: &[Value],
) -> LaneBits
    requires reach { IsInReach wave.now place }
    requires rule { IsRuleIn wave.now place arguments.now values.now }
    requires covered { CoversBeforeIn wave.now covered place }
    ensures bits { HasLanes result (bit_in_lane wave.now place) }
    ensures root { IsOwnRoot wave.now place place }
{
    let circuit = wave.circuit();
    let own = given(circuit.place_of(place));
    table_lanes(covered, arguments, values, own)
}

/// Its sources, if they are kept: those of a place whose number takes more than 4 bytes aren't.
fn rule_sources(
    alloc: Global,
    wave: &Wave<'_>,
    covered: Covered<'_>,
    place: usize,
    arguments: &[usize],
    values: &[Value],
) -> Result<Option<Vec<u32>>, Memory>
    requires reach { IsInReach wave.now place }
    requires rule { IsRuleIn wave.now place arguments.now values.now }
    requires covered { CoversBeforeIn wave.now covered place }
    ensures { IfOk result (λ found. IfSome found (λ list. AreSourcesIn wave.now place list.items)) }
{
    wave.recall();
    if place > u32::MAX as usize {
        return Ok(None);
    }
    if covered.nodes.is_full() {
        return Ok(None);
    }
    match joined(alloc, covered, arguments)? {
        Some(all) => {
            let sources = with_own(all, place, any_unknown(values))?;
            Ok(Some(sources))
        }
        None => Ok(None),
    }
}

/// The roots of its arguments, by their nodes in the graph.
fn rule_roots(
    alloc: Global,
    wave: &Wave<'_>,
    covered: Covered<'_>,
    place: usize,
    arguments: &[usize],
    values: &[Value],
) -> Result<Vec<NodeRoot>, Memory>
    requires reach { IsInReach wave.now place }
    requires rule { IsRuleIn wave.now place arguments.now values.now }
    requires covered { CoversBeforeIn wave.now covered place }
    requires before { AreBefore covered place }
    ensures { IfOk result (λ roots. AreRootsIn wave.now covered.entry.nodes.now place roots.items values.now) }
{
    wave.recall();
    let roots = roots_at(alloc, covered, arguments)?;
    Ok(roots)
}

/// The roots of some places.
fn roots_at(alloc: Global, covered: Covered<'_>, places: &[usize]) -> Result<Vec<NodeRoot>, Memory>
    requires covered { AllByRecursion (IsCovered covered) places.now }
    requires own { AllByRecursion (HasOwnNode covered) places.now }
    ensures { IfOk result (λ roots. roots.items ≡ map (covered_root covered.entry) places.now) }
{
    let mut roots = Vec::with_capacity(alloc, places.len())?;
    'places: for place in places {
        roots.push(root_at(covered, *place))?;
    }
    Ok(roots)
}

fn root_at(covered: Covered<'_>, place: usize) -> NodeRoot
    requires covered { IsCovered covered place }
    requires own { HasOwnNode covered place }
    ensures { result ≡ covered_root covered.entry place }
{
    let literal = literal_at(covered, place);
    NodeRoot {
        node: (literal.node() - 1) as u32,
        inverted: literal.is_inverted(),
    }
}

/// A node comes in that is made; its number is given back. Takes 48 bytes, and where it shares no list 8 bytes and 4 a
/// source.
pub fn put_node(nodes: &mut Nodes, made: Made) -> Result<usize, Memory>
    requires { IfSome made.sharing (λ node. node < length nodes.old) }
    ensures puts { OnOk result (nodes.new ≡ with_made nodes.old made) }
    ensures node { IfOk result (λ node. node ≡ length nodes.old) }
{
    let Made {
        place,
        lane_bits,
        sources,
        sharing,
        ..
    } = made;
    let node = nodes.len();
    match sharing {
        Some(other) => nodes.push_shared(place, lane_bits, other)?,
        None => put_listed(nodes, place, lane_bits, sources)?,
    }
    Ok(node)
}

fn put_listed(
    nodes: &mut Nodes,
    place: usize,
    lane_bits: LaneBits,
    sources: Option<Vec<u32>>,
) -> Result<(), Memory>
    ensures { OnOk result (nodes.new ≡ with_node nodes.old place lane_bits (listed_in sources)) }
{
    match sources {
        Some(list) => nodes.push_listed(place, lane_bits, list.as_slice()),
        None => nodes.push_unlisted(place, lane_bits),
    }
}
