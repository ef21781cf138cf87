//! Reading the declarations.

ghost use Rattle.std.specs.Prelude.{◌≡◌, ◌<◌, ◌≤◌, ◌^◌, ◌++◌, Bool, false, ℕ, List, length, IfOk};
ghost use Rattle.recording_reader.specs.Changes.{Body, start};
ghost use Rattle.recording_reader.specs.Declarations.{Declarations, with_scale, with_scope};
ghost use Rattle.recording_reader.specs.Machine.{upscope_on};
ghost use Rattle.recording_reader.specs.Machine.State.{note, scale, scope_kind, scope_name, scope_end, scale_end};
ghost use Rattle.recording_reader.specs.Machine.State.{upscope_end, var_kind, body, body_note, declaring};
ghost use Rattle.recording_reader.specs.Reading.{ReadsWords, ReadsCode, ReadsEnd, ReadsName, ReadsOn, ReadsOne};
ghost use Rattle.recording_reader.specs.Reading.{ReadsReference, ReadsVariableEnd, ReadsWidth, Shortens};

use crate::bytes::{is_code, is_end, is_power, is_scale, is_skipped, is_unit};
use crate::declarations::Declarations;
use crate::kinds::{Kind, kind_of};
use crate::ranges::{RecordedName, name_of, range_of};
use crate::refusal::VcdErr;
use crate::words::Words;
use base_scan::{are_digits, value_within};

/// Reads the declarations up to `$enddefinitions $end`.
pub fn read_declarations<'a>(
    words: &mut Words<'a>,
    declared: &mut Declarations<'a>,
) -> Result<(), VcdErr>
    ensures reads { ReadsWords (declaring declared.old) words.old result (λ _. body (start declared.new) false) words.new }
    ensures shortens { Shortens words.old result words.new }
{
    'declarations: loop {
        let (at, text) = words.need()?;
        match kind_of(text) {
            Kind::Note | Kind::Comment => skip_note(words)?,
            Kind::Timescale => read_scale(words, declared)?,
            Kind::Scope => read_scope(words, declared)?,
            Kind::Upscope => read_upscope(at, words, declared)?,
            Kind::Var => read_var(at, words, declared)?,
            Kind::Definitions => {
                read_end(words)?;
                return Ok(());
            }
            _ => return Err(VcdErr::Syntax { at }),
        }
    }
}

// "$end"
/// Reads the end of the declarations or of one of them.
fn read_end(words: &mut Words<'_>) -> Result<(), VcdErr>
    ensures definitions { ReadsEnd words.old result words.new }
    ensures scale { (h : Declarations) (text : List ℕ)
        → ReadsWords (scale_end h text) words.old result (λ _. declaring (with_scale h text)) words.new }
    ensures scope { (h : Declarations) (name : List ℕ)
        → ReadsWords (scope_end h name) words.old result (λ _. declaring (with_scope h name)) words.new }
    ensures upscope { (h : Declarations) → ReadsWords (upscope_end h) words.old result (λ _. declaring h) words.new }
    ensures variable { ReadsVariableEnd words.old result words.new }
    ensures shortens { Shortens words.old result words.new }
{
    let (at, text) = words.need()?;
    if is_end(text) {
        Ok(())
    } else {
        Err(VcdErr::Syntax { at })
    }
}

// note = ( "$date" | "$version" | "$comment" ) { word } "$end"
pub fn skip_note(words: &mut Words<'_>) -> Result<(), VcdErr>
    ensures reads { (h : Declarations) → ReadsWords (note h) words.old result (λ _. declaring h) words.new }
    ensures in_body { (b : Body) → ReadsWords (body_note b) words.old result (λ _. body b false) words.new }
    ensures shortens { Shortens words.old result words.new }
{
    'words: loop {
        let (_, text) = words.need()?;
        if is_end(text) {
            return Ok(());
        }
    }
}

// timescale = "$timescale" ( power unit | power white unit ) "$end"
fn read_scale(words: &mut Words<'_>, declared: &mut Declarations<'_>) -> Result<(), VcdErr>
    ensures reads { ReadsOne (scale declared.old) words.old result declared.new words.new }
    ensures shortens { Shortens words.old result words.new }
{
    let (at, text) = words.need()?;
    if is_scale(text) {
        return read_scale_end(text, b"".as_slice(), words, declared);
    }
    if !is_power(text) {
        return Err(VcdErr::Syntax { at });
    }
    let (unit_at, unit) = words.need()?;
    if !is_unit(unit) {
        return Err(VcdErr::Syntax { at: unit_at });
    }
    read_scale_end(text, unit, words, declared)
}

fn read_scale_end(
    front: &[u8],
    back: &[u8],
    words: &mut Words<'_>,
    declared: &mut Declarations<'_>,
) -> Result<(), VcdErr>
    ensures reads { ReadsOne (scale_end declared.old (front.now ++ back.now)) words.old result declared.new words.new }
    ensures shortens { Shortens words.old result words.new }
{
    read_end(words)?;
    declared.set_scale(front, back)
}

// scope = "$scope" kind name "$end"
fn read_scope(words: &mut Words<'_>, declared: &mut Declarations<'_>) -> Result<(), VcdErr>
    ensures reads { ReadsOne (scope_kind declared.old) words.old result declared.new words.new }
    ensures shortens { Shortens words.old result words.new }
{
    words.need()?;
    let name = read_plain(words)?;
    read_end(words)?;
    declared.enter(name)
}

/// Reads a word that may be any but `$end`.
fn read_plain<'a>(words: &mut Words<'a>) -> Result<&'a [u8], VcdErr>
    ensures scope { (h : Declarations) → ReadsWords (scope_name h) words.old result (λ t. scope_end h t.now) words.new }
    ensures variable { ReadsReference words.old result words.new }
    ensures shortens { Shortens words.old result words.new }
{
    let (at, text) = words.need()?;
    if is_end(text) {
        Err(VcdErr::Syntax { at })
    } else {
        Ok(text)
    }
}

// upscope = "$upscope" "$end"
fn read_upscope(
    at: usize,
    words: &mut Words<'_>,
    declared: &mut Declarations<'_>,
) -> Result<(), VcdErr>
    ensures reads { ReadsOn (upscope_on declared.old at) words.old result (λ _. declaring declared.new) words.new }
    ensures shortens { Shortens words.old result words.new }
{
    if !declared.leave() {
        return Err(VcdErr::Syntax { at });
    }
    read_end(words)?;
    Ok(())
}

// var = "$var" kind width code name "$end"
fn read_var<'a>(
    at: usize,
    words: &mut Words<'a>,
    declared: &mut Declarations<'a>,
) -> Result<(), VcdErr>
    ensures reads { ReadsOne (var_kind declared.old at) words.old result declared.new words.new }
    ensures shortens { Shortens words.old result words.new }
{
    let (_, kind) = words.need()?;
    let skipped = is_skipped(kind);
    let width = read_width(words)?;
    let number = read_code(at, skipped, width, words, declared)?;
    let name = read_name(words)?;
    declared.add_variable(skipped, number, width, &name)
}

/// Reads a width, 1 to 2^20.
fn read_width(words: &mut Words<'_>) -> Result<u32, VcdErr>
    ensures reads { ReadsWidth words.old result words.new }
    ensures some { IfOk result (λ width. 1 ≤ width) }
    ensures wide { IfOk result (λ width. width ≤ 2 ^ 20) }
    ensures shortens { Shortens words.old result words.new }
{
    let (at, text) = words.need()?;
    if !are_digits(text) {
        return Err(VcdErr::Syntax { at });
    }
    match value_within(1_048_576, text) {
        Some(width) if width >= 1 => Ok(width as u32),
        _ => Err(VcdErr::Width { at }),
    }
}

/// Reads a code, which is new or has this width already.
fn read_code<'a>(
    var: usize,
    skipped: bool,
    width: u32,
    words: &mut Words<'a>,
    declared: &mut Declarations<'a>,
) -> Result<usize, VcdErr>
    ensures reads { ReadsCode declared.old var skipped width words.old result declared.new words.new }
    ensures shortens { Shortens words.old result words.new }
{
    let (at, text) = words.need()?;
    if !is_code(text) {
        return Err(VcdErr::Syntax { at });
    }
    match declared.find(text) {
        Some(found) => {
            if found.width != width {
                return Err(VcdErr::Width { at: var });
            }
            declared.add_kind(found.number, skipped);
            Ok(found.number)
        }
        None => declared.add_code(text, width, skipped),
    }
}

// name = reference [ range ] "$end"
fn read_name<'a>(words: &mut Words<'a>) -> Result<RecordedName<'a>, VcdErr>
    ensures reads { ReadsName words.old result words.new }
    ensures shortens { Shortens words.old result words.new }
{
    let reference = read_plain(words)?;
    let (at, text) = words.need()?;
    if is_end(text) {
        return Ok(name_of(reference));
    }
    let Some(range) = range_of(text) else {
        return Err(VcdErr::Syntax { at });
    };
    read_end(words)?;
    Ok(RecordedName {
        reference,
        range: Some(range),
        direct: false,
    })
}
