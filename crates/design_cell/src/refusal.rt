//! Why a primitive's table is refused.

ghost use Rattle.std.specs.Prelude.{◌≡◌};
ghost use Rattle.design_cell.specs.declared.refusal.UdpErr.TheVariants.{Memory};

use std::alloc::AllocError;

/// Why a table is refused: the first in this order, rows ascending. The kind of the refusal counts before the row: all
/// rows have the right length before a symbol is refused. Rows are counted from 1.
#[derive(Clone, Copy, Debug, PartialEq, Eq, Hash)]
pub enum UdpErr {
    /// A sequential primitive has more than 9 inputs, or a combinational one more than 10.
    TooManyInputs,
    /// The row has a wrong number of entries, or lacks its state, or has one that it may not have.
    RowLength { row: usize },
    /// The row has a symbol that its column, or its kind of primitive, does not take.
    BadSymbol { row: usize },
    /// The row has two edges.
    TwoEdges { row: usize },
    /// The rows match one case and give different outputs there: the least first row, and of these the least second
    /// one.
    Conflict { first: usize, second: usize },
    /// There was no memory.
    Memory,
}

impl From<AllocError> for UdpErr {
    ghost from_gives = { λ _ refusal. refusal ≡ Memory };

    fn from(_: AllocError) -> Self {
        UdpErr::Memory
    }
}
