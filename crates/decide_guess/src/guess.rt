//! What is guessed of a node.

pub use decide_justify::NodeBit;

/// A guess about a node and a bit. Promised are the sources of a filling and the length of a log, and nothing else.
#[derive(Drop)]
pub enum Guess {
    /// The node has the bit where these sources, by their nodes, have 1 and all others 0.
    Filling(Vec<u32>),
    /// Nothing gives the node the bit: these clauses and after them the empty one follow by unit propagation from the
    /// clauses of the tables of its cone and from that bit. In each one of some nodes has a bit.
    Log(Vec<Vec<NodeBit>>),
    /// Neither was found.
    Nothing,
}
