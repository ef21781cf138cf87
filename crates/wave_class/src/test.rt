//! Tests of what the rule of a place gives.

/// A test of what the rule of a place gives.
#[derive(Clone, Copy, Debug, PartialEq, Eq)]
pub enum Test {
    /// It is the bit.
    Bit(bool),
    /// It is x.
    Unknown,
    /// It is 0 or 1.
    Known,
    /// It is the bit of the place of a number, or its complement where this is true.
    Copies(usize, bool),
}
