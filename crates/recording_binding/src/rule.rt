//! What nets without a driver have.

/// What a net without a driver has, as the outputs of a macro's stub are.
#[derive(Clone, Copy, Debug, PartialEq, Eq, Hash)]
pub enum UndrivenRule {
    /// It floats, whatever is recorded of it.
    Released,
    /// It is an input where a variable holds it or a net that copies it, and else floats.
    Recorded,
}
