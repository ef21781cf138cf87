//! Reading the changes.

ghost use Rattle.std.specs.Prelude.{◌≡◌, ◌<◌, ◌≤◌, Bool, false, [], length, OnOk};
ghost use Rattle.recording_reader.specs.Kinds.{kind_of};
ghost use Rattle.recording_reader.specs.Machine.{body_on};
ghost use Rattle.recording_reader.specs.Machine.State.{body, real};
ghost use Rattle.recording_reader.specs.Reading.{ReadsWords, ReadsOn, ReadsVector};
ghost use Rattle.recording_reader.specs.Words.{word};

use crate::body::Body;
use crate::bytes::{are_values, rest_of};
use crate::kinds::{Kind, kind_of};
use crate::read_declarations::skip_note;
use crate::refusal::VcdErr;
use crate::words::Words;

/// Reads the changes up to the end of the text.
pub fn read_changes<'a>(words: &mut Words<'a>, changed: &mut Body<'a>) -> Result<(), VcdErr>
    ensures reads { ReadsWords (body changed.old false) words.old result (λ _. body changed.new false) words.new }
    ensures ends { OnOk result (words.new.words ≡ []) }
{
    let mut dump = false;
    'changes: while let Some((at, text)) = words.next() {
        dump = read_change(at, text, dump, words, changed)?;
    }
    if dump {
        return Err(VcdErr::Truncated { at: words.stop() });
    }
    Ok(())
}

/// Reads what begins with this word, in a dump or outside. Whether a dump is open after it.
fn read_change(
    at: usize,
    text: &[u8],
    dump: bool,
    words: &mut Words<'_>,
    changed: &mut Body<'_>,
) -> Result<bool, VcdErr>
    ensures reads { ReadsOn (body_on (kind_of text.now) changed.old dump (word at text.now))
        words.old result (λ is_open. body changed.new is_open) words.new }
    ensures few { OnOk result (length words.new.words ≤ length words.old.words) }
{
    match kind_of(text) {
        Kind::Scalar => changed.add_scalar(at, text)?,
        Kind::Vector => read_vector(at, text, words, changed)?,
        Kind::Real => read_real(at, words, changed)?,
        Kind::Time if !dump => changed.add_time(at, rest_of(text))?,
        Kind::Comment if !dump => skip_note(words)?,
        Kind::Dump if !dump => return Ok(true),
        Kind::End if dump => return Ok(false),
        Kind::Off => return Err(VcdErr::DumpOff { at }),
        _ => return Err(VcdErr::Syntax { at }),
    }
    Ok(dump)
}

// vector = ( "b" | "B" ) digit { digit } white code
fn read_vector(
    at: usize,
    text: &[u8],
    words: &mut Words<'_>,
    changed: &mut Body<'_>,
) -> Result<(), VcdErr>
    ensures reads { ReadsVector (word at text.now) changed.old words.old result changed.new words.new }
    ensures few { OnOk result (length words.new.words < length words.old.words) }
{
    let digits = rest_of(text);
    if !are_values(digits) {
        return Err(VcdErr::Syntax { at });
    }
    let (code_at, code) = words.need()?;
    changed.add_vector(at, digits, code_at, code)
}

// real = ( "r" | "R" ) number white code, after its first word
fn read_real(at: usize, words: &mut Words<'_>, changed: &Body<'_>) -> Result<(), VcdErr>
    ensures reads { (dump : Bool) → ReadsWords (real changed.now dump at)
        words.old result (λ _. body changed.now dump) words.new }
    ensures few { OnOk result (length words.new.words < length words.old.words) }
{
    let (code_at, code) = words.need()?;
    changed.skip_real(at, code_at, code)
}
