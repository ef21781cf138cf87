//! What has a net among its bits.

ghost use Rattle.std.specs.Prelude.{◌≤◌, ◌^◌, IfOk, IfSome, length};
ghost use Rattle.recording_binding.specs.Binding.{FitsBinding};
ghost use Rattle.recording_writer.specs.Readers.{AreReadersOf};

use base_lists::Memory;
use design_circuit::Design;
use recording_binding::Binding;
use replay_due::Readers;
use replay_history::bit_readers;
use std::alloc::Global;

const MOST_BOUND: usize = 1 << 20;

/// For each net the numbers of what has it among its bits, as of bound variables. No net and no such number is as great
/// as `room`.
#[derive(Debug, Drop)]
pub struct BitReaders {
    pub room: usize,
    pub table: Readers,
}

impl BitReaders {
    /// The bound variables of a binding; none where there are more than 2^20. Takes 8 bytes for each net, or for each
    /// bound variable where there are more of these, and 4 for each bit; on the way 16 more for each. With more than
    /// 2^32 bits it answers `Memory`.
    pub fn of(alloc: Global, design: &Design, bound: &Binding) -> Result<Option<BitReaders>, Memory>
        requires nets { length design.now.nets ≤ 2 ^ 20 }
        requires bound { FitsBinding design.now bound.now }
        ensures { IfOk result (λ found. IfSome found (AreReadersOf (length design.now.nets) bound.now)) }
    {
        let count = bound.bound.as_slice().len();
        if count > MOST_BOUND {
            return Ok(None);
        }
        let room = design.nets.as_slice().len().max(count);
        let table = bit_readers(alloc, room, bound)?;
        Ok(Some(BitReaders { room, table }))
    }
}
