//! Nodes as literals.

ghost use Rattle.std.specs.Prelude.{◌≡◌, ◌+◌, ◌<◌, ◌≤◌, ◌^◌, IfOk, length, nat_abs};
ghost use Rattle.std.specs.List.{All};
ghost use Rattle.decide_nodes.specs.Nodes.{AreNodes, StandsAt};
ghost use Rattle.decide_cnf.specs.Literals.{AreLiterals, IsLiteral, is_ruled_node, literal_by, says, variables_of};
ghost use Rattle.decide_cnf.specs.Literals.{variables_with};

use base_lists::Memory;
use decide_nodes::{Node, NodeBody};
use std::alloc::Global;

/// How many nodes aren't carried.
pub fn variables_of(nodes: &[Node]) -> usize
    ensures { result ≡ variables_of nodes.now }
{
    nodes.iter().filter(|node| is_ruled(node)).count()
}

fn is_ruled(node: &Node) -> bool
    ensures { result ≡ is_ruled_node node.now }
{
    match &node.body {
        NodeBody::Carried { .. } => false,
        NodeBody::Rule { .. } => true,
    }
}

/// For each node the literal that says that it has 1. Takes four bytes a node.
pub fn literals_of(alloc: Global, nodes: &[Node]) -> Result<Vec<i32>, Memory>
    requires { AreNodes nodes.now }
    ensures { IfOk result (λ literals. AreLiterals nodes.now literals.items) }
{
    let mut literals = Vec::with_capacity(alloc, nodes.len())?;
    let mut variables: u32 = 0;
    'nodes: for node in nodes {
        literals.push(literal_of(&literals, variables, &node.body))?;
        variables = variables_with(variables, &node.body);
    }
    Ok(literals)
}

/// The literal of a body, from those of the nodes before it and their number of variables.
fn literal_of(literals: &[i32], variables: u32, body: &NodeBody) -> i32
    requires few { variables < 2 ^ 27 }
    requires literals { All (IsLiteral variables) literals.now }
    requires stands { StandsAt (length literals.now) body.now }
    ensures literal { result ≡ literal_by literals.now variables body.now }
    ensures fit { IsLiteral (variables_with variables body.now) result }
{
    match body {
        NodeBody::Carried { node, inverted } => turned(literals[*node as usize], !*inverted),
        NodeBody::Rule { .. } => (variables + 1) as i32,
    }
}

/// How many variables there are after a node, from how many there are before it.
pub fn variables_with(variables: u32, body: &NodeBody) -> u32
    requires { variables < 2 ^ 27 }
    ensures { result ≡ variables_with variables body.now }
{
    match body {
        NodeBody::Carried { .. } => variables,
        NodeBody::Rule { .. } => variables + 1,
    }
}

/// The literal that says that what a literal says has a bit.
pub fn turned(literal: i32, bit: bool) -> i32
    requires { nat_abs literal ≤ 2 ^ 27 }
    ensures { result ≡ says literal bit }
{
    if bit { literal } else { -literal }
}
