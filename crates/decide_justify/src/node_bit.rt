//! A node of a circuit and a bit.

/// A node of the circuit and a bit.
#[derive(Clone, Copy, Debug)]
pub struct NodeBit {
    pub node: u32,
    pub bit: bool,
}
