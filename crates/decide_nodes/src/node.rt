//! Nodes: the places of a cone, by their positions in place order.

ghost use Rattle.std.specs.Prelude.{◌≡◌};
ghost use Rattle.std.specs.List.{list_any};
ghost use Rattle.design_cell.specs.Value.{is_unknown};

use crate::positions::Positions;
use crate::values::Values;
use design_cell::Value;
use design_circuit::Place;

/// Where a node has its bit from.
#[derive(Drop)]
pub enum NodeBody {
    /// It has the bit of the node at an earlier position, or its complement where the second is true.
    Carried {
        node: u32,
        inverted: bool,
    },
    /// Its rule reads the nodes at these positions, one for each essential argument in place order: the argument's, or
    /// one with the same root. Value i of the table is the rule's where bit k of i is the bit of node k.
    Rule {
        arguments: Positions,
        values: Values,
    },
}

/// A place of a cone, and where it has its bit from.
#[derive(Drop)]
pub struct Node {
    pub place: Place,
    pub body: NodeBody,
}

impl Node {
    ghost use Rattle.decide_nodes.specs.Nodes.{is_source_node};

    /// Whether it is a source: its table has x somewhere.
    pub fn is_source(&self) -> bool
        ensures { result ≡ is_source_node self.now }
    {
        match &self.body {
            NodeBody::Carried { .. } => false,
            NodeBody::Rule { values, .. } => any_unknown(values.as_slice()),
        }
    }
}

fn any_unknown(values: &[Value]) -> bool
    ensures { result ≡ list_any is_unknown values.now }
{
    values
        .iter()
        .any(|value| matches!(*value, Value::X | Value::Z))
}
