//! A code text, and what its names and times are read by.

use design_circuit::{Bytes, Design, Order, Stim};

/// A code text, the design with its order, the times of the moments, and the names of the scope.
#[derive(Clone, Copy)]
pub struct Code<'a> {
    pub text: &'a [u8],
    pub design: &'a Design,
    pub order: &'a Order,
    pub stim: &'a Stim,
    pub scope: &'a [Bytes],
}
