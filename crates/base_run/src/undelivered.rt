//! Why what stands isn't delivered.

/// Why what stands isn't delivered.
#[derive(Clone, Copy, Debug)]
pub enum Undelivered<'a> {
    /// A call on an output file or on the sink failed, and this line reported it.
    Fault(&'a [u8]),
    /// There was no memory.
    Memory,
}
