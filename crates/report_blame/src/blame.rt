//! The unknown bits with their causes, and how many bits each source is to blame for.

ghost use Rattle.std.specs.Prelude.{IfOk};
ghost use Rattle.recording_binding.specs.Binding.{FitsBinding};
ghost use Rattle.wave_proved.specs.Contents.{IsFinished, job};
ghost use Rattle.report_blame.specs.Blamed.{AreBlamed, unknown_bits};
ghost use Rattle.report_blame.specs.Table.{IsBlameTable};

use crate::bits::{Blamed, blame_bits};
use crate::table::table_of;
use base_lists::Memory;
use design_circuit::Place;
use recording_binding::Binding;
use std::alloc::Global;
use wave_proved::Wave;

/// What is to blame for the unknown bits.
#[derive(Debug, Drop)]
pub struct Blame {
    /// In the order of a report.
    pub bits: Vec<Blamed>,
    /// Each source once with the number of its bits, the greatest number first, then in place order.
    pub table: Vec<(Place, u64)>,
}

/// A source and a filling to blame for each bound bit that is unknown at its moment's last round, and the table of the
/// sources. No clause says which of several sources is named.
///
/// The root of each of these bits is looked up in lanes, which follow the wave in the order of the report, and each
/// root is answered once. A cone is made only where the two fillings of a place list more than one place, and gives one
/// value more than their number has binary digits.
///
/// Takes what lanes take, a filling for each bit and one for each root that bits have in common, 8 bytes for each bit
/// and 32 for each source, a byte for each net, and for a time the memory of a cone.
pub fn blame_of(alloc: Global, wave: &Wave<'_>, bound: &Binding) -> Result<Blame, Memory>
    requires finished { IsFinished wave.now }
    requires binding { FitsBinding wave.now.design bound.now }
    ensures bits { IfOk result (λ blame. AreBlamed wave.now (unknown_bits wave.now bound.now.bound) blame.bits.items) }
    ensures table { IfOk result (λ blame. IsBlameTable (job wave.now) blame.bits.items blame.table.items) }
{
    let bits = blame_bits(alloc, wave, bound)?;
    let table = table_of(alloc, &wave.circuit(), bits.as_slice())?;
    Ok(Blame { bits, table })
}
