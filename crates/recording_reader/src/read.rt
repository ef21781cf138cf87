//! Reading a whole text.

ghost use Rattle.std.specs.Prelude.{◌≡◌, ◌≢◌, false, ◌<◌, ◌≤◌, ◌^◌, length, IfOk, IfErr, OnOk, Ok};
ghost use Rattle.recording_reader.specs.Changes.{recorded_so_far, start};
ghost use Rattle.recording_reader.specs.Faults.{Says, FirstFault, IsRead, beginning};
ghost use Rattle.recording_reader.specs.Machine.State.{body as in_body};
ghost use Rattle.recording_reader.specs.Reading.{Answers, RefusesRecording, goes};
ghost use Rattle.recording_reader.specs.Scopes.{StandInScopes};
ghost use Rattle.recording_reader.specs.Words.{left_of};
ghost use Rattle.recording_reader.specs.declared.refusal.VcdErr.TheVariants.{Memory as OutOfMemory};

use crate::body::Body;
use crate::declarations::Declarations;
use crate::read_changes::read_changes;
use crate::read_declarations::read_declarations;
use crate::recording::Recording;
use crate::refusal::VcdErr;
use crate::words::Words;
use std::alloc::Global;

/// The recording that a text says, or the text's first fault. Time is linear in the text. Memory is of the order of the
/// text: 8 bytes for each change and each moment, 4 more and a byte for each digit of a change of several digits, and
/// what the declarations take.
pub fn read_vcd(alloc: Global, bytes: &[u8]) -> Result<Recording, VcdErr>
    requires { length bytes.now ≤ 2 ^ 28 }
    ensures says { IfOk result (λ recording. Says bytes.now recording) }
    ensures first { IfErr result (λ refusal. refusal ≢ OutOfMemory → FirstFault bytes.now refusal) }
    ensures only { IsRead bytes.now result }
    ensures scopes { IfOk result (StandInScopes bytes.now) }
{
    read_text(alloc, bytes)
}

fn read_text(alloc: Global, bytes: &[u8]) -> Result<Recording, VcdErr>
    requires { length bytes.now ≤ 2 ^ 28 }
    ensures { Answers result (goes beginning (left_of 0 bytes.now)) }
{
    let mut words = Words::new(bytes);
    let mut declared = Declarations::new(alloc);
    read_declarations(&mut words, &mut declared)?;
    read_body(&mut words, declared)
}

/// Reads what stands after the declarations.
fn read_body<'a>(words: &mut Words<'a>, declared: Declarations<'a>) -> Result<Recording, VcdErr>
    ensures { Answers result (goes (in_body (start declared.entry) false) words.old) }
{
    let mut body = Body::new(declared)?;
    read_moments(words, &mut body)?;
    Ok(body.into_recording())
}

/// Reads the changes, after which there is a moment.
fn read_moments<'a>(words: &mut Words<'a>, body: &mut Body<'a>) -> Result<(), VcdErr>
    ensures says { OnOk result (goes (in_body body.old false) words.old ≡ Ok (recorded_so_far body.new)) }
    ensures refuses { IfErr result (λ refusal. RefusesRecording (goes (in_body body.old false) words.old) refusal) }
    ensures some { OnOk result (0 < length body.new.times) }
{
    read_changes(words, body)?;
    body.open_moment()?;
    Ok(())
}
