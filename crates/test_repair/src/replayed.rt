//! The replay of a job under forces, and what nets show and keep in it.

ghost use Rattle.std.specs.Prelude.{◌≡◌, ◌<◌, IfOk};
ghost use Rattle.design_circuit.specs.Circuit.{job_in};
ghost use Rattle.design_circuit.specs.Filling.{IsPlace};
ghost use Rattle.design_circuit.specs.Handed.{HasPlaces};
ghost use Rattle.cmd_job.specs.Compared.{job_for as job_of_texts};
ghost use Rattle.cmd_job.specs.Netlist.{FitsNetlist};
ghost use Rattle.cmd_job.specs.Recorded.{FitsRecorded};

use crate::case::Texts;
use crate::forced::{forces_of, is_place};
use crate::words::{first_word, is_word, text_of};
use base_lists::{Memory, put};
use cmd_job::{CompareErr, Netlist, Recorded, circuit_of, put_compare_line, replay_and_compare};
use design_cell::Value;
use design_circuit::{Circuit, History, Place, width_of};
use replay_history::replay;
use std::alloc::Global;
use test_cases::{Lines, Part, Report};

/// Replays a job under its forces, and compares what is found with the lines of a part; how far the job comes.
pub fn compare_rows(
    alloc: Global,
    report: &mut Report,
    texts: &Texts,
    rows: Part<'_>,
    netlist: &Netlist,
    recorded: &Recorded,
) -> Result<&'static str, Memory>
    requires netlist { FitsNetlist netlist.now }
    requires recorded { FitsRecorded netlist.now.design recorded.now }
{
    let history = replayed(alloc, netlist, recorded, texts)?;
    compare_history(alloc, report, rows, netlist, recorded, &history)
}

fn compare_history(
    alloc: Global,
    report: &mut Report,
    rows: Part<'_>,
    netlist: &Netlist,
    recorded: &Recorded,
    history: &History,
) -> Result<&'static str, Memory>
    requires netlist { FitsNetlist netlist.now }
    requires recorded { FitsRecorded netlist.now.design recorded.now }
    requires places { HasPlaces (job_of_texts netlist.now recorded.now) history.now }
{
    let content = rows.content(alloc)?;
    compare_lines(
        alloc,
        report,
        rows.line,
        content.as_slice(),
        netlist,
        recorded,
        history,
    )
}

fn compare_lines(
    alloc: Global,
    report: &mut Report,
    first: usize,
    text: &[u8],
    netlist: &Netlist,
    recorded: &Recorded,
    history: &History,
) -> Result<&'static str, Memory>
    requires netlist { FitsNetlist netlist.now }
    requires recorded { FitsRecorded netlist.now.design recorded.now }
    requires places { HasPlaces (job_of_texts netlist.now recorded.now) history.now }
{
    for line in Lines::new(text) {
        if !line.is_idle() {
            let at = first.saturating_add(line.number);
            compare_row(alloc, report, at, line.text, netlist, recorded, history)?;
        }
    }
    Ok("a replay")
}

fn compare_row(
    alloc: Global,
    report: &mut Report,
    at: usize,
    text: &[u8],
    netlist: &Netlist,
    recorded: &Recorded,
    history: &History,
) -> Result<(), Memory>
    requires netlist { FitsNetlist netlist.now }
    requires recorded { FitsRecorded netlist.now.design recorded.now }
    requires places { HasPlaces (job_of_texts netlist.now recorded.now) history.now }
{
    let mut got = Vec::new(alloc);
    put_answer(alloc, &mut got, netlist, recorded, history, text_of(text))?;
    Ok(report.compare(at, text, got.as_slice())?)
}

/// The replay under the forces of a case.
fn replayed(
    alloc: Global,
    netlist: &Netlist,
    recorded: &Recorded,
    texts: &Texts,
) -> Result<History, Memory>
    requires netlist { FitsNetlist netlist.now }
    requires recorded { FitsRecorded netlist.now.design recorded.now }
    ensures { IfOk result (HasPlaces (job_of_texts netlist.now recorded.now)) }
{
    let circuit = circuit_of(netlist, recorded);
    let forces = forces_of(alloc, &circuit, text_of(texts.forced.as_slice()))?;
    replay(alloc, &circuit, &forces)
}

/// Puts what a line should be: `shown NET = 0000 1111`, `kept NET = 0000 1111`, a moment behind the other with a value
/// for each round, or `compare` and how the recording compares with the replay without forces.
fn put_answer(
    alloc: Global,
    out: &mut Vec<u8>,
    netlist: &Netlist,
    recorded: &Recorded,
    history: &History,
    line: &str,
) -> Result<(), Memory>
    requires netlist { FitsNetlist netlist.now }
    requires recorded { FitsRecorded netlist.now.design recorded.now }
    requires places { HasPlaces (job_of_texts netlist.now recorded.now) history.now }
{
    let (verb, rest) = first_word(line);
    if is_word(verb, "compare") {
        return put_compared(alloc, out, netlist, recorded);
    }
    let (name, _) = first_word(rest);
    let circuit = circuit_of(netlist, recorded);
    put_named(alloc, out, &circuit, history, verb, name)
}

/// Puts the row of a net.
fn put_named(
    alloc: Global,
    out: &mut Vec<u8>,
    circuit: &Circuit<'_>,
    history: &History,
    verb: &str,
    name: &str,
) -> Result<(), Memory>
    requires places { HasPlaces (job_in circuit.now) history.now }
{
    put(out, verb.as_bytes())?;
    match net_named(alloc, circuit, name)? {
        Some(net) => {
            put_head(out, name)?;
            put_row(out, circuit, history, net, is_word(verb, "kept"))
        }
        None => put(out, b" of no net"),
    }
}

fn put_head(out: &mut Vec<u8>, name: &str) -> Result<(), Memory> {
    put(out, b" ")?;
    put(out, name.as_bytes())?;
    put(out, b" =")
}

/// Puts how the recording compares with the replay.
fn put_compared(
    alloc: Global,
    out: &mut Vec<u8>,
    netlist: &Netlist,
    recorded: &Recorded,
) -> Result<(), Memory>
    requires netlist { FitsNetlist netlist.now }
    requires recorded { FitsRecorded netlist.now.design recorded.now }
{
    match replay_and_compare(alloc, netlist, recorded) {
        Ok(_) => put(out, b"compare agrees"),
        Err(fault) => put_fault(alloc, out, &fault),
    }
}

fn put_fault(alloc: Global, out: &mut Vec<u8>, fault: &CompareErr) -> Result<(), Memory> {
    match fault {
        CompareErr::Refused(cause) => {
            put(out, b"compare ")?;
            Ok(put_compare_line(alloc, out, cause)?)
        }
        CompareErr::Memory => Err(Memory),
    }
}

/// The net of a written name.
pub fn net_named(alloc: Global, circuit: &Circuit<'_>, name: &str) -> Result<Option<u32>, Memory> {
    for net in 0..width_of(circuit) {
        if has_name(alloc, circuit, net as u32, name)? {
            return Ok(Some(net as u32));
        }
    }
    Ok(None)
}

fn has_name(alloc: Global, circuit: &Circuit<'_>, net: u32, name: &str) -> Result<bool, Memory>
    requires { net < (job_in circuit.now).width }
{
    let written = circuit.design.written_name(alloc, net)?;
    Ok(written.as_slice() == name.as_bytes())
}

/// A value for each round, with a space before each moment.
fn put_row(
    out: &mut Vec<u8>,
    circuit: &Circuit<'_>,
    history: &History,
    net: u32,
    kept: bool,
) -> Result<(), Memory>
    requires places { HasPlaces (job_in circuit.now) history.now }
{
    for moment in 0..circuit.stim.times.as_slice().len() {
        let step = (moment as u32).wrapping_mul(circuit.stim.rounds);
        put_rounds(out, circuit, history, Place { step, net }, kept)?;
    }
    Ok(())
}

/// Puts a space, and a value for each round from a place on.
fn put_rounds(
    out: &mut Vec<u8>,
    circuit: &Circuit<'_>,
    history: &History,
    first: Place,
    kept: bool,
) -> Result<(), Memory>
    requires places { HasPlaces (job_in circuit.now) history.now }
{
    put(out, b" ")?;
    for round in 0..circuit.stim.rounds {
        let step = first.step.wrapping_add(round);
        put_value(
            out,
            circuit,
            history,
            Place {
                step,
                net: first.net,
            },
            kept,
        )?;
    }
    Ok(())
}

/// Puts the value at a place, where it is one.
fn put_value(
    out: &mut Vec<u8>,
    circuit: &Circuit<'_>,
    history: &History,
    place: Place,
    kept: bool,
) -> Result<(), Memory>
    requires places { HasPlaces (job_in circuit.now) history.now }
{
    if is_place(circuit, place) {
        out.push(value_at(circuit, history, place, kept).letter())?;
    }
    Ok(())
}

fn value_at(circuit: &Circuit<'_>, history: &History, place: Place, kept: bool) -> Value
    requires places { HasPlaces (job_in circuit.now) history.now }
    requires place { IsPlace (job_in circuit.now) place }
{
    if kept {
        history.kept(place)
    } else {
        history.shown(place)
    }
}
