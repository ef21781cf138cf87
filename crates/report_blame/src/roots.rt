//! The roots of unknown places, and their cones: from lanes that follow the wave as the places are asked for, and where
//! these don't have them, from the wave itself.

ghost use Rattle.std.specs.Prelude.{◌≡◌, ◌≤◌, IfOk, IfSome, OnOk, length};
ghost use Rattle.decide_cone.specs.Cones.{AreRightOf};
ghost use Rattle.decide_nodes.specs.Traced.{IsConeOf};
ghost use Rattle.design_circuit.specs.Job.{number_of};
ghost use Rattle.decide_cone.specs.Lanes.{IsRightOf};
ghost use Rattle.law_model.specs.declared.class.ClassByNumber.TheVariants as class;
ghost use Rattle.wave_proved.specs.Contents.{IsWritten, class_in, job};
ghost use Rattle.wave_proved.specs.Pairs.{IsRootOf, IsUnknown};
ghost use Rattle.report_blame.specs.Roots.{IsNodeOf, IsRoot};

use base_lists::Memory;
use decide_cone::{Cones, Lanes};
use decide_nodes::Cone;
use design_circuit::Place;
use std::alloc::Global;
use wave_proved::Wave;

/// A place, whether the way to it inverts, and its node, where lanes have one.
#[derive(Clone, Copy)]
pub struct Root {
    pub place: Place,
    pub inverted: bool,
    pub node: Option<usize>,
}

/// The root of an unknown place: looked up, as long as places are asked for in an order that goes back less than three
/// steps. Takes what lanes take for the places up to it.
pub fn root_of(
    alloc: Global,
    wave: &Wave<'_>,
    lanes: &mut Lanes,
    place: Place,
) -> Result<Root, Memory>
    requires right { IsRightOf wave.now lanes.old }
    requires written { IsWritten wave.now place }
    requires unknown { IsUnknown wave.now place }
    ensures root { IfOk result (IsRoot wave.now lanes.new place) }
    ensures right { OnOk result (IsRightOf wave.now lanes.new) }
{
    let count = wave.circuit().number_of(place) + 1;
    if lanes.count() < count {
        lanes.cover(alloc, wave, count)?;
    }
    Ok(root_in(wave, lanes, place))
}

fn root_in(wave: &Wave<'_>, lanes: &Lanes, place: Place) -> Root
    requires right { IsRightOf wave.now lanes.now }
    requires written { IsWritten wave.now place }
    requires unknown { IsUnknown wave.now place }
    ensures { IsRoot wave.now lanes.now place result }
{
    match lanes.root_at(wave, place) {
        Some((node, root)) => Root {
            place: root.0,
            inverted: root.1,
            node: Some(node),
        },
        None => {
            let root = wave.root_at(place);
            Root {
                place: root.0,
                inverted: root.1,
                node: None,
            }
        }
    }
}

/// The cone of a Line place: that of its node, or where there is none, or the graph isn't kept, traced. Takes the
/// memory of the cone, and of the search in the graph or of a trace.
pub fn cone_of(
    alloc: Global,
    wave: &Wave<'_>,
    cones: &mut Cones,
    place: Place,
    node: Option<usize>,
) -> Result<Cone, Memory>
    requires right { AreRightOf wave.now cones.old }
    requires written { IsWritten wave.now place }
    requires line { class_in wave.now (number_of (job wave.now) place) ≡ class.Line }
    requires node { IfSome node (IsNodeOf wave.now cones.old.lanes place) }
    ensures cone { IfOk result (λ cone. IsConeOf wave.now (number_of (job wave.now) place) cone.nodes) }
    ensures right { OnOk result (AreRightOf wave.now cones.new) }
{
    match node {
        Some(node) => match cones.lanes.cone_at(alloc, wave, node)? {
            Some(cone) => Ok(cone),
            None => cones.tracer.trace_at(alloc, wave, place),
        },
        None => cones.tracer.trace_at(alloc, wave, place),
    }
}
