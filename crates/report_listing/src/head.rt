//! The first line.

ghost use Rattle.std.specs.Prelude.{◌≡◌, ◌++◌, OnOk};
ghost use Rattle.report_listing.specs.Blame as spec;

use base_lists::{Memory, put, put_number};
use report_bits::counts_of;
use std::alloc::Global;
use wave_proved::Wave;

// head = "blame bits " number " sources " number " undecided " number
pub fn put_head(
    alloc: Global,
    text: &mut Vec<u8>,
    wave: &Wave<'_>,
    bits: usize,
    sources: usize,
) -> Result<(), Memory>
    ensures { OnOk result (text.new.items ≡ text.old.items ++ spec.head_line wave.now bits sources) }
{
    let undecided = counts_of(alloc, wave)?.undecided;
    put(text, b"blame bits ")?;
    put_number(text, bits as u64)?;
    put(text, b" sources ")?;
    put_number(text, sources as u64)?;
    put(text, b" undecided ")?;
    put_number(text, undecided)?;
    put(text, b"\n")
}
