//! The files that a command reads.

/// The files that a command reads: one or two by themselves, then those of a list.
#[derive(Clone, Copy, Debug)]
pub struct Inputs<'a> {
    pub first: Option<&'a str>,
    pub second: Option<&'a str>,
    pub rest: &'a [String],
    /// The most bytes that the longest of them may have.
    pub most: usize,
}
