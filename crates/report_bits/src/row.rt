//! The row of a history that a reader of places goes on with.

ghost use Rattle.std.specs.Prelude.{◌≡◌, OnOk};

use base_lists::Memory;
use design_circuit::HistoryRow;
use std::alloc::Global;

/// Brings a row to a step: on from where it stands, or from the first step where it stands past it. Costs the places
/// that were written on the way, and a byte for each net where it begins anew.
pub fn bring(alloc: Global, replayed: &mut HistoryRow<'_>, step: u32) -> Result<(), Memory>
    ensures history { OnOk result (replayed.new.history ≡ replayed.old.history) }
    ensures step { OnOk result (replayed.new.step ≡ step) }
{
    if replayed.step() > step as usize {
        *replayed = HistoryRow::first(alloc, replayed.history())?;
    }
    'steps: while replayed.step() < step as usize {
        replayed.next_step();
    }
    Ok(())
}
