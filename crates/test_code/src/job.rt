//! The job of a case, and what of it is compared.

ghost use Rattle.std.specs.Prelude.{IfOk, IfSome};
ghost use Rattle.cmd_job.specs.Netlist.{FitsNetlist};
ghost use Rattle.cmd_job.specs.Recorded.{FitsRecorded};

use crate::case::{Given, Texts, compare};
use crate::cuts::cuts_of;
use crate::events::events_of;
use crate::moments::recording_of;
use crate::scoped::Scoped;
use crate::texts::{compare_texts, read_lines};
use crate::words::{names_of, text_of};
use base_lists::Memory;
use cmd_job::{Netlist, PLACES, Recorded, Rules, Settings, read_netlist, read_recording};
use design_circuit::{Bytes, Levels, RegisterRules, StartRule};
use recording_binding::UndrivenRule;
use std::alloc::Global;
use test_cases::{Part, Report};

/// Compares what a part says with what comes.
pub fn compare_job(
    alloc: Global,
    report: &mut Report,
    texts: &Texts<'_>,
    part: Part<'_>,
) -> Result<(), Memory> {
    let Some(mut netlist) = netlist_of(alloc, texts) else {
        return compare(report, part.line, b"a design", b"none");
    };
    let Some(recorded) = recorded_of(alloc, &mut netlist, texts)? else {
        return compare(report, part.line, b"moments", b"none");
    };
    let scope = names_of(alloc, texts.scope)?;
    let scoped = Scoped::new(&netlist, &recorded, scope.as_slice());
    compare_part(alloc, report, &scoped, &texts.given, part)
}

fn netlist_of(alloc: Global, texts: &Texts<'_>) -> Option<Netlist>
    ensures { IfSome result FitsNetlist }
{
    read_netlist(alloc, texts.netlist.as_slice(), "top").ok()
}

/// The moments of a case.
fn recorded_of(
    alloc: Global,
    netlist: &mut Netlist,
    texts: &Texts<'_>,
) -> Result<Option<Recorded>, Memory>
    requires { FitsNetlist netlist.old }
    ensures netlist { IfOk result (λ found. IfSome found (λ _. FitsNetlist netlist.new)) }
    ensures recorded { IfOk result (λ found. IfSome found (FitsRecorded netlist.new.design)) }
{
    let text = recording_of(alloc, &netlist.design, texts.times)?;
    if text.len() > 1 << 28 {
        return Ok(None);
    }
    let scope = [Bytes::from_vec(Vec::from_slice(alloc, b"dut")?)];
    let rounds = texts.rounds.clamp(1, 16);
    let settings = Settings {
        scope: &scope,
        rounds,
        most: PLACES,
        rules: Rules {
            registers: RegisterRules {
                start: StartRule::Cold,
                levels: Levels::Change,
            },
            undriven: UndrivenRule::Released,
        },
    };
    Ok(read_recording(alloc, netlist, text.as_slice(), settings).ok())
}

fn compare_part(
    alloc: Global,
    report: &mut Report,
    scoped: &Scoped<'_>,
    given: &Given,
    part: Part<'_>,
) -> Result<(), Memory> {
    if text_of(part.head) == "texts" {
        return compare_texts(alloc, report, scoped, part);
    }
    let want = part.content(alloc)?;
    let got = answer_of(alloc, scoped, given, text_of(part.head))?;
    let line = part.line.saturating_add(1);
    compare(report, line, want.as_slice(), got.as_slice())
}

/// What comes of the code.
fn answer_of(
    alloc: Global,
    scoped: &Scoped<'_>,
    given: &Given,
    kind: &str,
) -> Result<Vec<u8>, Memory> {
    let Some(code) = code_of(alloc, scoped, given)? else {
        return Ok(Vec::from_slice(alloc, b"no place\n")?);
    };
    match kind {
        "code" => Ok(code),
        "cuts" => Ok(cuts_of(alloc, scoped, code.as_slice())?.into_bytes()),
        _ => read_lines(alloc, scoped, code.as_slice()),
    }
}

/// The code, or the text that is written for the events.
fn code_of(alloc: Global, scoped: &Scoped<'_>, given: &Given) -> Result<Option<Vec<u8>>, Memory> {
    match given {
        Given::Code(code) => Ok(Some(Vec::from_slice(alloc, code.as_slice())?)),
        Given::Events(lines) => {
            let events = events_of(alloc, scoped, lines.as_slice())?;
            scoped.write(alloc, &events)
        }
    }
}
