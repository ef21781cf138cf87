//! Places and fillings.

use base_lists::Items;

/// A net at a step. With R rounds a moment, round j of moment k is step k * R + j.
#[derive(Clone, Copy, Debug, PartialEq, Eq, Hash)]
pub struct Place {
    pub step: u32,
    pub net: u32,
}

/// The places that get 1, in place order and without doubles; all others get 0.
pub type Filling = Items<Place>;
