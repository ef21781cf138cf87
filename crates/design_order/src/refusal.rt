//! Why a design has no order.

ghost use Rattle.std.specs.Prelude.{◌≡◌};
ghost use Rattle.design_order.specs.declared.refusal.OrderErr.TheVariants.{Memory as want};

use base_lists::{Items, Memory};
use std::alloc::AllocError;

/// Why there is no order.
#[derive(Debug, Drop)]
pub enum OrderErr {
    /// These nets hold an argument of each of them, in the order of a walk from net to argument.
    Loop { nets: Items<u32> },
    /// There was no memory.
    Memory,
}

impl From<Memory> for OrderErr {
    ghost from_gives = { λ _ refusal. refusal ≡ want };

    fn from(_: Memory) -> Self {
        OrderErr::Memory
    }
}

impl From<AllocError> for OrderErr {
    ghost from_gives = { λ _ refusal. refusal ≡ want };

    fn from(_: AllocError) -> Self {
        OrderErr::Memory
    }
}
