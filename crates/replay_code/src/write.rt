//! The text of code that forces nets.

ghost use Rattle.std.specs.Prelude.{◌≡◌, ◌++◌, ◌<◌, IfOk, OnOk, length};
ghost use Rattle.replay_code.specs.Clock as clock;
ghost use Rattle.replay_code.specs.Names as names;
ghost use Rattle.replay_code.specs.Steps.{HasEvents};
ghost use Rattle.replay_code.specs.Written as spec;

use crate::clock::{Clock, clock_at};
use crate::names::put_name;
use base_lists::{Memory, put, put_number};
use design_cell::Value;
use design_circuit::{Bytes, Design, Event, Forces, Stim};
use std::alloc::Global;

/// The text of code that forces nets as these events do, in a scope. Takes the text's bytes, and for a while those of a
/// net's name.
pub fn write_code(
    alloc: Global,
    design: &Design,
    stim: &Stim,
    scope: &[Bytes],
    forces: &Forces,
) -> Result<Vec<u8>, Memory>
    requires { HasEvents design.now stim.now forces.now }
    ensures { IfOk result (λ text. text.items ≡ spec.code_text design.now stim.now scope.now forces.now) }
{
    let mut text = Vec::new(alloc);
    put(&mut text, b"module xrepair_code;\n")?;
    put(&mut text, b"  initial begin\n")?;
    put_events(alloc, &mut text, design, stim, scope, forces.as_slice())?;
    put(&mut text, b"  end\n")?;
    put(&mut text, b"endmodule\n")?;
    Ok(text)
}

/// Puts the events, each behind the waits that lead to its step.
fn put_events(
    alloc: Global,
    text: &mut Vec<u8>,
    design: &Design,
    stim: &Stim,
    scope: &[Bytes],
    events: &[Event],
) -> Result<(), Memory>
    requires { HasEvents design.now stim.now events.now }
    ensures { OnOk result
        (text.new.items ≡ text.old.items ++ spec.event_lines design.now stim.now scope.now clock.start events.now) }
{
    let mut now = Clock { time: 0, round: 0 };
    let mut rest = events;
    'events: while let [event, after @ ..] = rest {
        let next = clock_at(stim, event.step);
        put_waits(text, now, next)?;
        put_event(alloc, text, design, scope, event)?;
        now = next;
        rest = after;
    }
    Ok(())
}

/// Puts the waits from one clock to another.
fn put_waits(text: &mut Vec<u8>, from: Clock, to: Clock) -> Result<(), Memory>
    ensures { OnOk result (text.new.items ≡ text.old.items ++ spec.wait_lines from to) }
{
    if from.time == to.time {
        return put_rounds(text, to.round.saturating_sub(from.round));
    }
    put_wait(text, to.time.saturating_sub(from.time))?;
    put_rounds(text, to.round)
}

/// Puts waits for so many rounds.
fn put_rounds(text: &mut Vec<u8>, count: u32) -> Result<(), Memory>
    ensures { OnOk result (text.new.items ≡ text.old.items ++ spec.round_lines count) }
{
    'rounds: for _ in 0..count {
        put_wait(text, 0)?;
    }
    Ok(())
}

fn put_wait(text: &mut Vec<u8>, units: u64) -> Result<(), Memory>
    ensures { OnOk result (text.new.items ≡ text.old.items ++ spec.wait_line units) }
{
    put(text, b"    #")?;
    put_number(text, units)?;
    put(text, b";\n")
}

/// Puts the statement of an event.
fn put_event(
    alloc: Global,
    text: &mut Vec<u8>,
    design: &Design,
    scope: &[Bytes],
    event: &Event,
) -> Result<(), Memory>
    requires { event.now.net < length design.now.nets }
    ensures { OnOk result (text.new.items
        ≡ text.old.items
        ++ spec.event_line (names.code_name design.now scope.now event.now.net) event.now.value) }
{
    match event.value {
        Some(value) => {
            put(text, b"    force ")?;
            put_name(alloc, text, design, scope, event.net)?;
            put_value(text, value)
        }
        None => {
            put(text, b"    release ")?;
            put_name(alloc, text, design, scope, event.net)?;
            put(text, b";\n")
        }
    }
}

fn put_value(text: &mut Vec<u8>, value: Value) -> Result<(), Memory>
    ensures { OnOk result (text.new.items ≡ text.old.items ++ spec.value_end value) }
{
    put(text, b" = 1'b")?;
    text.push(value.letter())?;
    put(text, b";\n")
}
