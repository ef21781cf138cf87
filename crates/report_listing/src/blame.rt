//! The text of the unknown bits and of the sources that are to blame for them.

ghost use Rattle.std.specs.Prelude.{◌≡◌, IfOk};
ghost use Rattle.std.specs.List.{AllByRecursion};
ghost use Rattle.report_listing.specs.Blame as spec;
ghost use Rattle.recording_binding.specs.Binding.{FitsBinding};
ghost use Rattle.wave_proved.specs.Contents.{IsFinished};

use crate::head::put_head;
use crate::rows::{put_bits, put_sources};
use base_lists::Memory;
use recording_binding::Binding;
use report_blame::{Blame, blame_of};
use std::alloc::Global;
use wave_proved::Wave;

/// A line of numbers, a line for each bound bit that is unknown at its moment's last round, with a source and a filling
/// to blame for it, and a line for each source with the number of its bits.
///
/// Takes what `blame_of` takes, and the text's bytes.
pub fn blame_text(alloc: Global, wave: &Wave<'_>, bound: &Binding) -> Result<Vec<u8>, Memory>
    requires finished { IsFinished wave.now }
    requires binding { FitsBinding wave.now.design bound.now }
    ensures { IfOk result (λ text. spec.TellsBlame wave.now bound.now.bound text.items) }
{
    let blame = blame_of(alloc, wave, bound)?;
    text_of(alloc, wave, &blame)
}

#[tactic(auto, unfolding(crate::specs::Blame::blame_text))]
fn text_of(alloc: Global, wave: &Wave<'_>, blame: &Blame) -> Result<Vec<u8>, Memory>
    requires bits { AllByRecursion (spec.HasPlaces wave.now) blame.now.bits.items }
    requires table { AllByRecursion (spec.HasSource wave.now) blame.now.table.items }
    ensures { IfOk result (λ text. text.items ≡ spec.blame_text wave.now blame.now.bits.items blame.now.table.items) }
{
    let bits = blame.bits.as_slice();
    let table = blame.table.as_slice();
    let mut text = Vec::new(alloc);
    put_head(alloc, &mut text, wave, bits.len(), table.len())?;
    put_bits(alloc, &mut text, wave, bits)?;
    put_sources(alloc, &mut text, wave, table)?;
    Ok(text)
}
