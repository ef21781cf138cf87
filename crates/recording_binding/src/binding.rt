//! What binds the variables of a recording to the nets of a design.

use crate::net_numbers::NetNumbers;
use base_lists::Items;
use design_circuit::Bytes;

/// A variable of a recording that is bound to nets.
#[derive(Drop)]
pub struct Bound {
    /// Its number in the recording.
    pub variable: u32,
    /// The numbers of its nets from the left, one or more.
    pub bits: NetNumbers,
    /// The names of its scopes from the top, as the recording writes them.
    pub path: Items<Bytes>,
    /// The index of the first and of the last of its bits; none for a scalar net.
    pub range: Option<(u32, u32)>,
}

/// The variables of a recording that are bound to nets, in its order.
#[derive(Drop)]
pub struct Binding {
    /// The number and the unit of the recording's timescale, joined.
    pub timescale: Option<Bytes>,
    pub bound: Items<Bound>,
}
