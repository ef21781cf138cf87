//! What a pool knows of a node beside its bits.

/// The number of a node in its graph, where the entries of what it reads are listed, its table, where its given bits
/// stand (at 0 if it is no source), and when it was met: 32 bytes.
#[derive(Clone, Copy, Debug)]
pub(crate) struct Entry {
    pub(crate) node: u32,
    pub(crate) first: u32,
    pub(crate) end: u32,
    /// Whether what it reads is listed.
    pub(crate) is_listed: bool,
    pub(crate) table: u32,
    pub(crate) given: u32,
    /// The pass in which it was evaluated, 0 for none.
    pub(crate) pass: u32,
    /// The walk that met it last, 0 for none.
    pub(crate) walk: u32,
}

impl Entry {
    /// That of a node that wasn't evaluated.
    pub(crate) fn unread(node: u32) -> Entry {
        Entry {
            node,
            first: 0,
            end: 0,
            is_listed: false,
            table: 0,
            given: 0,
            pass: 0,
            walk: 0,
        }
    }

    /// Whether the node has given bits.
    pub(crate) fn is_source(self) -> bool {
        self.given != 0
    }
}
