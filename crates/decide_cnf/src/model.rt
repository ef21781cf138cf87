//! The filling of a model.

ghost use Rattle.std.specs.Prelude.{◌≡◌, ◌&&◌, IfOk, length, slice_index_or, false};
ghost use Rattle.sat_proof.specs.Assignment.{assigned};
ghost use Rattle.decide_nodes.specs.Nodes.{AreNodes, is_source_node};
ghost use Rattle.decide_cnf.specs.Literals.{variables_of};
ghost use Rattle.decide_cnf.specs.Models.{GivesPair, IsModelFilling, picked_places};

use crate::literals::variables_with;
use base_lists::{Items, Memory};
use decide_nodes::{Cone, Node};
use design_circuit::{Filling, Place};
use sat_proof::Model;
use std::alloc::Global;

/// The sources of a cone to whose variable a model of its query gives 1, in place order. Takes eight bytes for each, in
/// steps that double.
pub fn model_filling(alloc: Global, cone: &Cone, model: &Model) -> Result<Filling, Memory>
    requires { length model.now ≡ variables_of cone.now.nodes }
    ensures filling { IfOk result (λ filling. IsModelFilling cone.now.nodes model.now filling) }
    ensures pair { IfOk result (λ filling. GivesPair cone.now.nodes model.now filling) }
{
    let places = picked_places(alloc, cone.nodes(), model.as_slice())?;
    Ok(Items::from_vec(places))
}

/// The places of the nodes that a model picks.
fn picked_places(alloc: Global, nodes: &[Node], values: &[bool]) -> Result<Vec<Place>, Memory>
    requires { AreNodes nodes.now }
    ensures { IfOk result
        (λ places. places.items ≡ picked_places nodes.now (assigned values.now) (length nodes.now)) }
{
    let mut places = Vec::new(alloc);
    let mut variables: u32 = 0;
    'nodes: for node in nodes {
        if is_picked(node, values, variables) {
            places.push(node.place)?;
        }
        variables = variables_with(variables, &node.body);
    }
    Ok(places)
}

/// Whether a node is a source to whose variable values give 1, from how many variables there are before it.
fn is_picked(node: &Node, values: &[bool], variables: u32) -> bool
    ensures { result ≡ (is_source_node node.now && assigned values.now variables) }
{
    node.is_source() && value_of(values, variables)
}

/// The value of a variable, counted from 0.
fn value_of(values: &[bool], variable: u32) -> bool
    ensures { result ≡ assigned values.now variable }
{
    match values.get(variable as usize) {
        Some(value) => *value,
        None => false,
    }
}
