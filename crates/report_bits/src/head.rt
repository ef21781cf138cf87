//! The first lines of a report.

ghost use Rattle.std.specs.Prelude.{◌≡◌, ◌++◌, OnOk, IfOk, length};
ghost use Rattle.wave_proved.specs.Contents.{IsFinished};
ghost use Rattle.report_bits.specs.Head as spec;

use crate::counts::{Counts, counts_of};
use crate::puts::put_count;
use base_lists::{Memory, put};
use std::alloc::Global;
use wave_proved::Wave;

/// The first three lines of a report: how many places and moments there are, and how many rounds a moment has; how many
/// places have which end; how many `force` statements there are, as given, and lines of the certificate.
///
/// Takes the text's bytes and three bytes for each net, and time linear in the steps, in the nets and in what the wave
/// and its history write anew.
#[tactic(auto, unfolding(crate::specs::Head::head_lines))]
pub fn head_lines(alloc: Global, wave: &Wave<'_>, forces: usize) -> Result<Vec<u8>, Memory>
    requires { IsFinished wave.now }
    ensures { IfOk result (λ text. text.items ≡ spec.head_lines wave.now forces) }
{
    let mut text = Vec::new(alloc);
    put_sizes(&mut text, wave)?;
    put_counts(&mut text, counts_of(alloc, wave)?)?;
    put_lines(&mut text, forces, wave.lines().len())?;
    Ok(text)
}

// sizes = "places " number " moments " number " rounds " number
fn put_sizes(text: &mut Vec<u8>, wave: &Wave<'_>) -> Result<(), Memory>
    requires { IsFinished wave.now }
    ensures { OnOk result (text.new.items ≡ text.old.items ++ spec.sizes_line wave.now) }
{
    let stim = wave.stim();
    put_count(text, b"places ", wave.count() as u64)?;
    put_count(text, b" moments ", stim.times.as_slice().len() as u64)?;
    put_count(text, b" rounds ", stim.rounds as u64)?;
    put(text, b"\n")
}

// counts = "known " number " repaired " number " unknown " number " undecided " number
fn put_counts(text: &mut Vec<u8>, counts: Counts) -> Result<(), Memory>
    ensures { OnOk result (text.new.items ≡ text.old.items ++ spec.counts_line counts) }
{
    put_count(text, b"known ", counts.known)?;
    put_count(text, b" repaired ", counts.repaired)?;
    put_count(text, b" unknown ", counts.unknown)?;
    put_count(text, b" undecided ", counts.undecided)?;
    put(text, b"\n")
}

// lines = "forces " number " lines " number
fn put_lines(text: &mut Vec<u8>, forces: usize, lines: usize) -> Result<(), Memory>
    ensures { OnOk result (text.new.items ≡ text.old.items ++ spec.forces_line forces lines) }
{
    put_count(text, b"forces ", forces as u64)?;
    put_count(text, b" lines ", lines as u64)?;
    put(text, b"\n")
}
