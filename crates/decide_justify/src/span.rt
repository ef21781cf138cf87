//! Parts of lists.

/// So many items of a list, from one on.
#[derive(Clone, Copy, Debug)]
pub(crate) struct Span {
    pub(crate) start: u32,
    pub(crate) count: u32,
}

impl Span {
    /// No items.
    pub(crate) fn empty() -> Span {
        Span { start: 0, count: 0 }
    }

    /// How many items.
    pub(crate) fn len(self) -> usize {
        self.count as usize
    }

    /// Where item k stands in the list.
    pub(crate) fn place(self, k: usize) -> usize {
        (self.start as usize).saturating_add(k)
    }
}
