//! The lines of refusals, without their newline.

ghost use Rattle.std.specs.Prelude.{◌≡◌, ◌++◌, OnOk, decimal};
ghost use Rattle.cmd_job.specs.Lines as spec;

use crate::compare_refusal::CompareRefusal;
use crate::netlist_refusal::NetlistRefusal;
use crate::recording_refusal::RecordingRefusal;
use design_cell::Value;
use design_circuit::Bytes;
use elab_nets::ElabFault;
use std::alloc::{AllocError, Global};

/// Puts the line of a netlist's refusal.
pub fn put_netlist_line(
    alloc: Global,
    text: &mut Vec<u8>,
    refusal: &NetlistRefusal,
) -> Result<(), AllocError>
    ensures { OnOk result (text.new.items ≡ text.old.items ++ spec.netlist_line refusal.now) }
{
    match refusal {
        NetlistRefusal::Grammar { fault } => {
            put(text, b"refused: netlist at ")?;
            let words = format!(in alloc; "{fault}")?;
            put_fault(alloc, text, fault.at(), words.as_bytes())
        }
        NetlistRefusal::Design { fault } => put_design_fault(alloc, text, fault),
        NetlistRefusal::Loop { names } => put_loop(text, names.as_slice()),
    }
}

/// Puts a fault of a tree: with the byte, or with the name of a definition.
fn put_design_fault(alloc: Global, text: &mut Vec<u8>, fault: &ElabFault) -> Result<(), AllocError>
    ensures { OnOk result (text.new.items ≡ text.old.items ++ spec.design_line fault.now) }
{
    let words = format!(in alloc; "{fault}")?;
    match (fault.at(), fault.name()) {
        (Some(at), _) => {
            put(text, b"refused: netlist at ")?;
            put_fault(alloc, text, at, words.as_bytes())
        }
        (None, Some(name)) => {
            put(text, b"refused: netlist: ")?;
            put_named(text, words.as_bytes(), name)
        }
        (None, None) => unreachable!(),
    }
}

fn put_loop(text: &mut Vec<u8>, names: &[Bytes]) -> Result<(), AllocError>
    ensures { OnOk result (text.new.items ≡ text.old.items ++ spec.loop_line names.now) }
{
    put(text, b"refused: loop")?;
    put_spaced(text, names)?;
    Ok(())
}

/// Puts names, each with a space before it.
fn put_spaced(text: &mut Vec<u8>, names: &[Bytes]) -> Result<(), AllocError>
    ensures { OnOk result (text.new.items ≡ text.old.items ++ spec.spaced names.now) }
{
    'names: for name in names {
        text.push(b' ')?;
        text.extend_from_slice(name.as_slice())?;
    }
    Ok(())
}

/// Puts the line of a recording's refusal.
pub fn put_recording_line(
    alloc: Global,
    text: &mut Vec<u8>,
    refusal: &RecordingRefusal,
) -> Result<(), AllocError>
    ensures { OnOk result (text.new.items ≡ text.old.items ++ spec.recording_line refusal.now) }
{
    match refusal {
        RecordingRefusal::Grammar { fault } => {
            put(text, b"refused: recording at ")?;
            let words = format!(in alloc; "{fault}")?;
            put_fault(alloc, text, fault.at(), words.as_bytes())
        }
        RecordingRefusal::NoScope { name } => put_unbound(text, b"no scope", name.as_slice()),
        RecordingRefusal::RangeDiffers { name } => put_unbound(
            text,
            b"range differs",
            name.as_slice(),
        ),
        RecordingRefusal::MissingInput { name } => put_unbound(
            text,
            b"missing input",
            name.as_slice(),
        ),
        RecordingRefusal::TooLarge { places } => put_places(alloc, text, *places),
    }
}

/// Puts what keeps the variables of a recording from being bound, and a name.
fn put_unbound(text: &mut Vec<u8>, words: &[u8], name: &[u8]) -> Result<(), AllocError>
    ensures { OnOk result (text.new.items ≡ text.old.items ++ spec.unbound_line words.now name.now) }
{
    put(text, b"refused: recording: ")?;
    put_named(text, words, name)
}

fn put_places(alloc: Global, text: &mut Vec<u8>, places: u64) -> Result<(), AllocError>
    ensures { OnOk result (text.new.items ≡ text.old.items ++ spec.places_line places) }
{
    put(text, b"refused: too large places ")?;
    put_number(alloc, text, places)?;
    Ok(())
}

/// Puts the line of a refusal that the replay gives.
pub fn put_compare_line(
    alloc: Global,
    text: &mut Vec<u8>,
    refusal: &CompareRefusal,
) -> Result<(), AllocError>
    ensures { OnOk result (text.new.items ≡ text.old.items ++ spec.compare_line refusal.now) }
{
    match refusal {
        CompareRefusal::Disagrees {
            time,
            name,
            recorded,
            replayed,
        } => {
            let at = TimedName {
                time: *time,
                name: name.as_slice(),
            };
            put_disagreement(alloc, text, at, *recorded, *replayed)
        }
        CompareRefusal::Unsettled {
            time,
            name,
            kept,
            next,
        } => {
            let at = TimedName {
                time: *time,
                name: name.as_slice(),
            };
            put_unsettled(alloc, text, at, *kept, *next)
        }
    }
}

/// The name of a net, with the time of a moment.
#[derive(Clone, Copy)]
struct TimedName<'a> {
    time: u64,
    name: &'a [u8],
}

fn put_disagreement(
    alloc: Global,
    text: &mut Vec<u8>,
    at: TimedName<'_>,
    recorded: Value,
    replayed: Value,
) -> Result<(), AllocError>
    ensures { let spot = at.entry in OnOk result (text.new.items
        ≡ text.old.items ++ spec.disagrees_line spot.time spot.name.now recorded replayed) }
{
    put(text, b"refused: disagrees #")?;
    put_spot(alloc, text, at)?;
    put_values(text, b" recorded ", recorded, b" replayed ", replayed)
}

fn put_unsettled(
    alloc: Global,
    text: &mut Vec<u8>,
    at: TimedName<'_>,
    kept: Value,
    next: Value,
) -> Result<(), AllocError>
    ensures { let spot = at.entry in OnOk result (text.new.items
        ≡ text.old.items ++ spec.unsettled_line spot.time spot.name.now kept next) }
{
    put(text, b"refused: unsettled #")?;
    put_spot(alloc, text, at)?;
    put_values(text, b" kept ", kept, b" next ", next)?;
    Ok(())
}

/// Puts a time and a name.
fn put_spot(alloc: Global, text: &mut Vec<u8>, at: TimedName<'_>) -> Result<(), AllocError>
    ensures { let spot = at.entry in
        OnOk result (text.new.items ≡ text.old.items ++ spec.spot_text spot.time spot.name.now) }
{
    put_number(alloc, text, at.time)?;
    put(text, b" ")?;
    put(text, at.name)
}

/// Puts two words, each with a value.
fn put_values(
    text: &mut Vec<u8>,
    first: &[u8],
    one: Value,
    second: &[u8],
    other: Value,
) -> Result<(), AllocError>
    ensures { OnOk result (text.new.items
        ≡ text.old.items ++ (spec.value_text first.now one ++ spec.value_text second.now other)) }
{
    put_value(text, first, one)?;
    put_value(text, second, other)
}

/// Puts a word and a value.
fn put_value(text: &mut Vec<u8>, word: &[u8], value: Value) -> Result<(), AllocError>
    ensures { OnOk result (text.new.items ≡ text.old.items ++ spec.value_text word.now value) }
{
    put(text, word)?;
    put(text, &[value.letter()])
}

/// Puts a byte and what is wrong there.
fn put_fault(alloc: Global, text: &mut Vec<u8>, at: usize, words: &[u8]) -> Result<(), AllocError>
    ensures { OnOk result (text.new.items ≡ text.old.items ++ spec.fault_text at words.now) }
{
    put_number(alloc, text, at as u64)?;
    put(text, b": ")?;
    put(text, words)
}

/// Puts what is wrong, and a name.
fn put_named(text: &mut Vec<u8>, words: &[u8], name: &[u8]) -> Result<(), AllocError>
    ensures { OnOk result (text.new.items ≡ text.old.items ++ spec.named_text words.now name.now) }
{
    put(text, words)?;
    put(text, b" ")?;
    put(text, name)
}

fn put_number(alloc: Global, text: &mut Vec<u8>, number: u64) -> Result<(), AllocError>
    ensures { OnOk result (text.new.items ≡ text.old.items ++ decimal number) }
{
    let digits = format!(in alloc; "{number}")?;
    put(text, digits.as_bytes())
}

fn put(text: &mut Vec<u8>, bytes: &[u8]) -> Result<(), AllocError>
    ensures { OnOk result (text.new.items ≡ text.old.items ++ bytes.now) }
{
    text.extend_from_slice(bytes)?;
    Ok(())
}
