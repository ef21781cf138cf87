//! A conflict, as hints are taken from it.

use sat_proof::premises::Premises;
use sat_proof::propagator::Propagator;

/// What the propagator came to. On its trail what holds with no decision ends at `base`, and the last level begins at
/// `top`.
#[derive(Clone, Copy)]
pub(crate) struct FoundConflict<'a> {
    pub(crate) propagator: &'a Propagator,
    pub(crate) clauses: &'a Premises<'a>,
    pub(crate) base: usize,
    pub(crate) top: usize,
}
