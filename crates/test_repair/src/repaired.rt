//! The repair of a job, and the facts that are compared with it.

ghost use Rattle.design_circuit.specs.Handed.{IsReplay};
ghost use Rattle.cmd_job.specs.Compared.{job_for};
ghost use Rattle.cmd_job.specs.Netlist.{FitsNetlist};
ghost use Rattle.cmd_job.specs.Recorded.{FitsRecorded};
ghost use Rattle.wave_proved.specs.Contents.{AreLimits};

use crate::case::Texts;
use crate::facts::answer;
use crate::words::text_of;
use base_lists::Memory;
use cmd_job::{Netlist, Recorded, circuit_of, replay_and_compare};
use decide_repair::{RepairErr, repair};
use design_circuit::History;
use law_model::Limits;
use std::alloc::Global;
use test_cases::{Line, Lines, Part, Report};
use wave_proved::Wave;

/// Repairs a job, and compares what is found of it with the lines of a part; how far the job comes.
pub fn compare_facts(
    alloc: Global,
    report: &mut Report,
    texts: &Texts,
    facts: Part<'_>,
    netlist: &Netlist,
    recorded: &Recorded,
) -> Result<&'static str, Memory>
    requires netlist { FitsNetlist netlist.now }
    requires recorded { FitsRecorded netlist.now.design recorded.now }
{
    match replay_and_compare(alloc, netlist, recorded).ok() {
        Some(history) => {
            compare_repair(
                alloc,
                report,
                texts.conflicts,
                facts,
                netlist,
                recorded,
                &history,
            )
        }
        None => Ok("no replay"),
    }
}

fn compare_repair(
    alloc: Global,
    report: &mut Report,
    conflicts: u32,
    facts: Part<'_>,
    netlist: &Netlist,
    recorded: &Recorded,
    history: &History,
) -> Result<&'static str, Memory>
    requires netlist { FitsNetlist netlist.now }
    requires recorded { FitsRecorded netlist.now.design recorded.now }
    requires replay { IsReplay (job_for netlist.now recorded.now) history.now }
{
    match wave_of(alloc, netlist, recorded, history, conflicts).ok() {
        Some(wave) => compare_wave(alloc, report, &wave, facts),
        None => Ok("no waveform"),
    }
}

fn wave_of<'a>(
    alloc: Global,
    netlist: &'a Netlist,
    recorded: &'a Recorded,
    history: &'a History,
    conflicts: u32,
) -> Result<Wave<'a>, RepairErr>
    requires netlist { FitsNetlist netlist.now }
    requires recorded { FitsRecorded netlist.now.design recorded.now }
    requires replay { IsReplay (job_for netlist.now recorded.now) history.now }
{
    let circuit = circuit_of(netlist, recorded);
    repair(alloc, circuit, history, limits_of(conflicts))
}

/// The nearest limits that decisions may have.
fn limits_of(conflicts: u32) -> Limits
    ensures { AreLimits result }
{
    Limits {
        conflicts: conflicts.clamp(1, 100_000),
        enumerated: 12,
    }
}

fn compare_wave(
    alloc: Global,
    report: &mut Report,
    wave: &Wave<'_>,
    facts: Part<'_>,
) -> Result<&'static str, Memory> {
    let content = facts.content(alloc)?;
    compare_lines(alloc, report, wave, facts.line, content.as_slice())
}

fn compare_lines(
    alloc: Global,
    report: &mut Report,
    wave: &Wave<'_>,
    first: usize,
    text: &[u8],
) -> Result<&'static str, Memory> {
    for line in Lines::new(text) {
        if !line.is_idle() {
            compare_line(alloc, report, wave, first, line)?;
        }
    }
    Ok("a repair")
}

fn compare_line(
    alloc: Global,
    report: &mut Report,
    wave: &Wave<'_>,
    first: usize,
    line: Line<'_>,
) -> Result<(), Memory> {
    let got = answer(alloc, wave, text_of(line.text))?;
    let at = first.saturating_add(line.number);
    Ok(report.compare(at, line.text, got.as_str().as_bytes())?)
}
