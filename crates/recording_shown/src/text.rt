//! The text of the recording.

ghost use Rattle.std.specs.Prelude.{◌≡◌, IfOk};
ghost use Rattle.recording_binding.specs.Binding.{FitsBinding};
ghost use Rattle.recording_writer.specs.Text.{vcd_text};
ghost use Rattle.recording_shown.specs.History.{shown_history};
ghost use Rattle.wave_proved.specs.Contents.{IsFinished};

use crate::row::ShownWave;
use base_lists::Memory;
use recording_binding::Binding;
use recording_writer::{MomentRows, text_of_rows};
use std::alloc::Global;
use wave_proved::Wave;

/// The text of a recording with what a finished wave shows: its variables, and at each moment the values at its last
/// round.
///
/// Takes what `text_of_rows` of recording_writer does, and 4 bytes for each net. Takes time linear in the text, in the
/// places that the wave wrote anew and in the bits of the variables that have such a one in a moment, and two binary
/// searches for each step; with more than 2^20 bound variables, it is linear in all bits at each moment.
pub fn wave_text(alloc: Global, wave: &Wave<'_>, binding: &Binding) -> Result<Vec<u8>, Memory>
    requires finished { IsFinished wave.now }
    requires binding { FitsBinding wave.now.design binding.now }
    ensures { let history = shown_history wave.now in
        IfOk result (λ text. text.items ≡ vcd_text wave.now.design binding.now wave.now.stim history) }
{
    // With it comes the fact that the circuit of the wave fits.
    wave.recall();
    let row = ShownWave::first(alloc, wave)?;
    let before = ShownWave::first(alloc, wave)?;
    let rows = MomentRows::first(row, before, wave.stim().rounds);
    text_of_rows(alloc, wave.design(), binding, wave.stim(), rows)
}
