//! The command: reads the files, and writes what the top needs of them, with stubs of the modules that are named.

ghost use Rattle.std.specs.Prelude.{◌≡◌, IfOk, IsSome};
ghost use Rattle.base_run.specs.Prepared.{Judged, Prepared, PreparedAlone, answer_of};
ghost use Rattle.netlist_trim.specs.Trims.{TrimComes};
ghost use Rattle.cmd_trim.specs.Phases.{StubsCome, kept_phases, text_phases, trim_answer, trim_phases};
ghost use Rattle.cmd_trim.specs.Words.{trim_values};
ghost use Rattle.cmd_trim.specs.declared.cause.Refused.TheVariants.{Stub, Text};

use crate::cause::Refused;
use crate::names::names_of;
use crate::trim_words::TrimWords;
use base_lists::Memory;
use base_run::{Output, Prepare, Ready, Refusal, Report, read_inputs};
use base_shelf::{Shelf, Sink};
use netlist_stub::{StubErr, stub};
use netlist_trim::{TrimErr, trim};
use std::alloc::Global;

/// The most bytes of the joined text.
const TEXT_BYTES: usize = 1_073_741_824;

/// The command with its words.
#[derive(Clone, Copy)]
pub struct Trim<'a> {
    pub words: TrimWords<'a>,
}

impl<'a> Prepare for Trim<'a> {
    type Cause = Refused;

    ghost phases = { λ command. trim_phases (trim_values command.words) };

    fn prepare<S: Shelf, O: Sink>(
        &self,
        alloc: Global,
        shelf: &mut S,
        _out: &mut O,
    ) -> Result<Ready<'_>, Refusal<Refused>> {
        let text = read_inputs(alloc, shelf, self.words.files, TEXT_BYTES, Refused::Long)?;
        trimmed(alloc, &self.words, text.as_slice())
    }
}

/// What a text comes to.
fn trimmed<'a>(
    alloc: Global,
    words: &TrimWords<'a>,
    text: &[u8],
) -> Result<Ready<'a>, Refusal<Refused>>
    ensures { PreparedAlone (text_phases (trim_values words.now) text.now) answer_of result }
{
    match words.stubs {
        Some(_) => stubbed(alloc, words, text),
        None => kept(alloc, words, text),
    }
}

/// What it comes to with stubs.
fn stubbed<'a>(
    alloc: Global,
    words: &TrimWords<'a>,
    text: &[u8],
) -> Result<Ready<'a>, Refusal<Refused>>
    requires { IsSome words.now.stubs }
    ensures { PreparedAlone (text_phases (trim_values words.now) text.now) answer_of result }
{
    let out = stubs_of(alloc, words, text)?;
    kept(alloc, words, out.as_slice())
}

/// The text with the stubs.
fn stubs_of(alloc: Global, words: &TrimWords<'_>, text: &[u8]) -> Result<Vec<u8>, Refusal<Refused>>
    requires { IsSome words.now.stubs }
    ensures { let w = trim_values words.now in
        Judged (StubsCome w.stubs w.supplies text.now) Stub (λ out. out.items) result }
{
    let names = names_of(alloc, words.stubs)?;
    let supplies = names_of(alloc, words.supplies)?;
    match stub(alloc, text, names.as_slice(), supplies.as_slice()) {
        Ok(out) => Ok(out),
        Err(StubErr::Refused(fault)) => Err(Refusal::Text {
            cause: Refused::Stub(fault),
        }),
        Err(StubErr::Memory) => Err(Refusal::Memory),
    }
}

/// What the text with stubs comes to.
fn kept<'a>(
    alloc: Global,
    words: &TrimWords<'a>,
    text: &[u8],
) -> Result<Ready<'a>, Refusal<Refused>>
    ensures { PreparedAlone (kept_phases (trim_values words.now) text.now) answer_of result }
{
    let out = kept_of(alloc, text, words.top.as_bytes())?;
    Ok(answered(alloc, words, out)?)
}

/// What the top needs of a text.
fn kept_of(alloc: Global, text: &[u8], top: &[u8]) -> Result<Vec<u8>, Refusal<Refused>>
    ensures { Judged (TrimComes text.now top.now) Text (λ out. out.items) result }
{
    match trim(alloc, text, top) {
        Ok(out) => Ok(out),
        Err(TrimErr::Refused(fault)) => Err(Refusal::Text {
            cause: Refused::Text(fault),
        }),
        Err(TrimErr::Memory) => Err(Refusal::Memory),
    }
}

/// The file that is written, and an empty report.
fn answered<'a>(alloc: Global, words: &TrimWords<'a>, out: Vec<u8>) -> Result<Ready<'a>, Memory>
    ensures { IfOk result (λ ready. answer_of ready ≡ trim_answer (trim_values words.now) out.items) }
{
    let mut outputs = Vec::new(alloc);
    outputs.push(Output::new(alloc, words.to, out)?)?;
    Ok(Ready {
        outputs,
        report: Report::new(alloc, Vec::new(alloc))?,
    })
}
