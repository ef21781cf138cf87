//! The job of a case: its netlist and its recording, which a part repairs or replays.

ghost use Rattle.std.specs.Prelude.{IfOk, IfSome};
ghost use Rattle.cmd_job.specs.Netlist.{FitsNetlist};
ghost use Rattle.cmd_job.specs.Recorded.{FitsRecorded};

use crate::case::Texts;
use crate::repaired::compare_facts;
use crate::replayed::compare_rows;
use crate::words::{is_word, text_of};
use base_lists::Memory;
use cmd_job::{Netlist, PLACES, Recorded, Rules, Settings, read_netlist, read_recording};
use design_circuit::Bytes;
use recording_binding::UndrivenRule;
use std::alloc::Global;
use std::slice;
use test_cases::{Part, Report};

/// Repairs or replays the job of a case, and compares what is found of it with the lines of a part.
pub fn compare_part(
    alloc: Global,
    report: &mut Report,
    texts: &Texts,
    part: Part<'_>,
) -> Result<(), Memory> {
    let want = if is_replay(part) {
        "a replay"
    } else {
        "a repair"
    };
    let end = run_part(alloc, report, texts, part)?;
    Ok(report.compare(part.line, want.as_bytes(), end.as_bytes())?)
}

fn is_replay(part: Part<'_>) -> bool {
    is_word(text_of(part.head), "replay")
}

/// How far a job comes.
fn run_part(
    alloc: Global,
    report: &mut Report,
    texts: &Texts,
    part: Part<'_>,
) -> Result<&'static str, Memory> {
    match netlist_of(alloc, texts) {
        Some(netlist) => run_netlist(alloc, report, texts, part, netlist),
        None => Ok("no design"),
    }
}

fn netlist_of(alloc: Global, texts: &Texts) -> Option<Netlist>
    ensures { IfSome result FitsNetlist }
{
    read_netlist(alloc, texts.netlist.as_slice(), "top").ok()
}

fn run_netlist(
    alloc: Global,
    report: &mut Report,
    texts: &Texts,
    part: Part<'_>,
    netlist: Netlist,
) -> Result<&'static str, Memory>
    requires { FitsNetlist netlist }
{
    let mut netlist = netlist;
    run_recording(alloc, report, texts, part, &mut netlist)
}

fn run_recording(
    alloc: Global,
    report: &mut Report,
    texts: &Texts,
    part: Part<'_>,
    netlist: &mut Netlist,
) -> Result<&'static str, Memory>
    requires { FitsNetlist netlist.old }
{
    match recorded_of(alloc, netlist, texts)? {
        Some(recorded) => run_recorded(alloc, report, texts, part, netlist, &recorded),
        None => Ok("no recording"),
    }
}

fn recorded_of(
    alloc: Global,
    netlist: &mut Netlist,
    texts: &Texts,
) -> Result<Option<Recorded>, Memory>
    requires { FitsNetlist netlist.old }
    ensures netlist { IfOk result (λ found. IfSome found (λ _. FitsNetlist netlist.new)) }
    ensures recorded { IfOk result (λ found. IfSome found (FitsRecorded netlist.new.design)) }
{
    let text = texts.recording.as_slice();
    if text.len() > 1 << 28 {
        return Ok(None);
    }
    let scope = Bytes::from_vec(Vec::from_slice(alloc, b"dut")?);
    let rounds = texts.rounds.clamp(1, 16);
    let rules = Rules {
        registers: texts.rules,
        undriven: UndrivenRule::Released,
    };
    let scope = slice::from_ref(&scope);
    let settings = Settings {
        scope,
        rounds,
        most: PLACES,
        rules,
    };
    Ok(read_recording(alloc, netlist, text, settings).ok())
}

fn run_recorded(
    alloc: Global,
    report: &mut Report,
    texts: &Texts,
    part: Part<'_>,
    netlist: &Netlist,
    recorded: &Recorded,
) -> Result<&'static str, Memory>
    requires netlist { FitsNetlist netlist.now }
    requires recorded { FitsRecorded netlist.now.design recorded.now }
{
    if is_replay(part) {
        compare_rows(alloc, report, texts, part, netlist, recorded)
    } else {
        compare_facts(alloc, report, texts, part, netlist, recorded)
    }
}
