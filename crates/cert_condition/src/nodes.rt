//! The nodes of a turn query: the places of a cone, with their whole tables, and those of its boundary.

ghost use Rattle.std.specs.Prelude.{◌≡◌, ◌∷◌, [], true, false, IfOk};
ghost use Rattle.design_cell.specs.declared.value.Value.TheVariants.{X};
ghost use Rattle.decide_nodes.specs.declared.node.NodeBody.TheVariants.{Rule};
ghost use Rattle.law_model.specs.Cone.{is_carried};
ghost use Rattle.law_model.specs.Places.{among};
ghost use Rattle.wave_proved.specs.Contents.{class_in};
ghost use Rattle.cert_condition.specs.TurnNodes.{AreNodesAround, IsAround, IsBodyAround};

use crate::whole::whole_values;
use base_lists::Memory;
use decide_cone::{is_among, position_in, positions_in};
use decide_nodes::{Node, NodeBody, Positions, Values};
use design_cell::Value;
use law_model::ClassByNumber;
use std::alloc::Global;
use wave_class::argument_places;
use wave_proved::Wave;

/// The nodes of the places of a cone and of its boundary, from their numbers and from those of the cone's. Takes memory
/// for them and for their tables.
pub fn turn_nodes(
    alloc: Global,
    wave: &Wave<'_>,
    places: &[usize],
    inside: &[usize],
) -> Result<Vec<Node>, Memory>
    requires { IsAround wave.now places.now inside.now }
    ensures { IfOk result (λ nodes. AreNodesAround wave.now places.now inside.now nodes.items) }
{
    let circuit = wave.circuit();
    let mut nodes = Vec::with_capacity(alloc, places.len())?;
    'places: for position in 0..places.len() {
        let place = places[position];
        let body = body_at(alloc, wave, places, inside, place)?;
        nodes.push(Node {
            place: circuit.place_of(place),
            body,
        })?;
    }
    Ok(nodes)
}

/// The body of a place.
fn body_at(
    alloc: Global,
    wave: &Wave<'_>,
    places: &[usize],
    inside: &[usize],
    place: usize,
) -> Result<NodeBody, Memory>
    requires around { IsAround wave.now places.now inside.now }
    requires near { among places.now place ≡ true }
    ensures { IfOk result (IsBodyAround wave.now places.now inside.now place) }
{
    if is_among(inside, place) {
        cone_body(alloc, wave, places, inside, place)
    } else {
        open_body(alloc)
    }
}

/// That of a place of the cone.
fn cone_body(
    alloc: Global,
    wave: &Wave<'_>,
    places: &[usize],
    inside: &[usize],
    place: usize,
) -> Result<NodeBody, Memory>
    requires around { IsAround wave.now places.now inside.now }
    requires inside { among inside.now place ≡ true }
    ensures { IfOk result (IsBodyAround wave.now places.now inside.now place) }
{
    match wave.class_by_number(place) {
        ClassByNumber::Carried(from, inverted) => Ok(NodeBody::Carried {
            node: position_in(places, from),
            inverted,
        }),
        ClassByNumber::Local(_) => whole_body(alloc, wave, places, inside, place),
        ClassByNumber::Free => whole_body(alloc, wave, places, inside, place),
        ClassByNumber::Line => whole_body(alloc, wave, places, inside, place),
    }
}

/// That of one that isn't carried.
fn whole_body(
    alloc: Global,
    wave: &Wave<'_>,
    places: &[usize],
    inside: &[usize],
    place: usize,
) -> Result<NodeBody, Memory>
    requires around { IsAround wave.now places.now inside.now }
    requires inside { among inside.now place ≡ true }
    requires free { is_carried (class_in wave.now place) ≡ false }
    ensures { IfOk result (IsBodyAround wave.now places.now inside.now place) }
{
    let circuit = wave.circuit();
    let arguments = argument_places(&circuit, wave, place);
    let arguments = arguments.as_slice();
    let values = whole_values(alloc, wave, circuit.place_of(place), arguments.len())?;
    Ok(NodeBody::Rule {
        arguments: positions_in(places, arguments),
        values: Values::from_vec(values),
    })
}

/// That of a boundary place: it has no arguments, and x.
fn open_body(alloc: Global) -> Result<NodeBody, Memory>
    ensures { IfOk result (λ body. body ≡ Rule [] (X ∷ [])) }
{
    let mut values = Vec::with_capacity(alloc, 1)?;
    values.push(Value::X)?;
    Ok(NodeBody::Rule {
        arguments: Positions::new(),
        values: Values::from_vec(values),
    })
}
