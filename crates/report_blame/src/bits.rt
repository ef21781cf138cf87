//! The unknown bits, each with a source and a filling to blame.

ghost use Rattle.std.specs.Prelude.{◌≡◌, false, IfOk, OnOk};
ghost use Rattle.design_circuit.specs.Job.{number_of};
ghost use Rattle.recording_binding.specs.Binding.{FitsBinding};
ghost use Rattle.wave_proved.specs.Contents.{IsFinished, job};
ghost use Rattle.report_bits.specs.BoundPlaces.{HasBit, bit_place};
ghost use Rattle.report_blame.specs.Blamed.{AddsBit, AreBlamed, IsShownRow, is_unknown_bit};
ghost use Rattle.report_blame.specs.Blamed.{unknown_bits};
ghost use Rattle.report_blame.specs.Causes.{AreCauses};

use crate::causes::Causes;
use base_lists::Memory;
use design_circuit::{Filling, HistoryRow, Mark, Place};
use recording_binding::{Binding, BoundBit, BoundBits};
use report_bits::{bit_place, bring};
use std::alloc::Global;
use wave_proved::Wave;

/// An unknown bit at a moment's last round, with a source and a filling to blame.
#[derive(Debug, Drop)]
pub struct Blamed {
    /// The variable's number in the recording.
    pub variable: u32,
    /// How many of its bits stand on the left.
    pub bit: u32,
    pub place: Place,
    /// The place that flips the bit by itself.
    pub source: Place,
    /// What else gets 1 then; it doesn't list the source.
    pub others: Filling,
}

/// The unknown bits, in the order of a report. The wave is asked only for bits that the history shows as x or z. Takes
/// their fillings, each of these again for each root that bits have in common, and a byte for each net.
pub fn blame_bits(alloc: Global, wave: &Wave<'_>, bound: &Binding) -> Result<Vec<Blamed>, Memory>
    requires finished { IsFinished wave.now }
    requires binding { FitsBinding wave.now.design bound.now }
    ensures { IfOk result (λ bits. AreBlamed wave.now (unknown_bits wave.now bound.now.bound) bits.items) }
{
    // With it comes the fact that the wave is sound.
    wave.recall();
    let mut causes = Causes::new(alloc)?;
    let mut blamed = Vec::new(alloc);
    let mut replayed = HistoryRow::first(alloc, wave.replayed())?;
    let mut bits = BoundBits::new(wave.stim(), bound.bound.as_slice());
    'bits: while let Some(bit) = bits.next() {
        bring(alloc, &mut replayed, bit_place(wave.stim(), bit).step)?;
        if is_shown_unknown(wave, &replayed, bit) {
            add_bit(alloc, &mut blamed, wave, &mut causes, bit)?;
        }
    }
    Ok(blamed)
}

/// Whether the history shows x or z of a bit, by the row of its moment. One that it shows as 0 or 1 isn't unknown.
fn is_shown_unknown(wave: &Wave<'_>, replayed: &HistoryRow<'_>, bit: BoundBit) -> bool
    requires bit { HasBit wave.now bit }
    requires row { IsShownRow wave.now bit.moment replayed.now }
    ensures { result ≡ false → is_unknown_bit wave.now bit ≡ false }
{
    // With it comes the fact that the wave is sound.
    wave.recall();
    !replayed.shown(bit.net).is_known()
}

/// Tells a bit, where it is unknown.
fn add_bit(
    alloc: Global,
    blamed: &mut Vec<Blamed>,
    wave: &Wave<'_>,
    causes: &mut Causes,
    bit: BoundBit,
) -> Result<(), Memory>
    requires bit { HasBit wave.now bit }
    requires causes { AreCauses wave.now causes.old }
    ensures added { OnOk result (AddsBit wave.now bit blamed.old.items blamed.new.items) }
    ensures causes { OnOk result (AreCauses wave.now causes.new) }
{
    let place = bit_place(wave.stim(), bit);
    match wave.mark(place) {
        Mark::Unknown => {
            let cause = causes.find(alloc, wave, place)?;
            blamed.push(Blamed {
                variable: bit.variable,
                bit: bit.bit,
                place,
                source: cause.source,
                others: cause.others,
            })?;
            Ok(())
        }
        Mark::Certain => Ok(()),
        Mark::Undecided => Ok(()),
    }
}
