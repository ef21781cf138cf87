//! What a search comes to.

use crate::node_bit::NodeBit;

/// What a search comes to. Nothing of it is promised but how many clauses a log has.
#[derive(Debug, Drop)]
pub enum Step {
    /// It goes on once this node is read in by `give`.
    Wanted(u32),
    /// The node has its bit where these sources, by their nodes, have 1 and all others 0.
    Filling(Vec<u32>),
    /// Nothing gives the node its bit: these clauses, and after them the empty one, follow by unit propagation from
    /// what the tables say and from that bit. In each one of some nodes has a bit.
    Log(Vec<Vec<NodeBit>>),
    /// Neither was found in as many conflicts as were allowed.
    Nothing,
}
