//! The roots that a node reads, by their nodes, and tables over them.

ghost use Rattle.std.specs.Prelude.{◌≡◌, ◌<◌, ◌≤◌, ◌^◌, IfOk, length, map};
ghost use Rattle.law_model.specs.Class.{flipped};
ghost use Rattle.decide_graph.specs.NodeRoots.{IsTurnedTable, node_in, turned_number};

use base_lists::Memory;
use decide_nodes::Positions;
use design_cell::Value;
use std::alloc::Global;

/// The root of a place: a node by number, and whether the place has the complement of its bit.
#[derive(Clone, Copy, Debug)]
pub struct NodeRoot {
    pub node: u32,
    pub inverted: bool,
}

/// The nodes of roots.
pub fn nodes_of(roots: &[NodeRoot]) -> Positions
    requires { length roots.now ≤ 13 }
    ensures { result ≡ map node_in roots.now }
{
    let mut nodes = Positions::new();
    'roots: for root in roots {
        nodes.push(root.node);
    }
    nodes
}

/// A table over places by the bits of their roots' nodes: at each number the value where the inverted ones have the
/// other bit.
pub fn turned_values(
    alloc: Global,
    roots: &[NodeRoot],
    values: &[Value],
) -> Result<Vec<Value>, Memory>
    requires few { length roots.now ≤ 13 }
    requires long { length values.now ≡ 2 ^ length roots.now }
    ensures { IfOk result (λ turned. IsTurnedTable roots.now values.now turned.items) }
{
    let mut turned = Vec::with_capacity(alloc, values.len())?;
    'numbers: for number in 0..values.len() {
        turned.push(values[turned_number(roots, number)])?;
    }
    Ok(turned)
}

/// A number with the bits turned at which the root is inverted.
fn turned_number(roots: &[NodeRoot], number: usize) -> usize
    requires few { length roots.now ≤ 13 }
    ensures number { result ≡ turned_number roots.now number }
    ensures small { result < 2 ^ length roots.now }
{
    match roots {
        [] => 0,
        [first, others @ ..] => {
            let above = 2 * turned_number(others, number / 2);
            if turned(first.inverted, number % 2 == 1) {
                above + 1
            } else {
                above
            }
        }
    }
}

fn turned(inverted: bool, bit: bool) -> bool
    ensures { result ≡ flipped inverted bit }
{
    if inverted { !bit } else { bit }
}
