//! Events as words, `STEP NET VALUE` or `STEP NET release`, a line each.

use crate::scoped::Scoped;
use crate::words::{first_word, last_word, text_of};
use base_lists::{Memory, put, put_number};
use design_cell::Value;
use design_circuit::{Event, Forces};
use std::alloc::Global;
use test_cases::Lines;

/// The events of lines; those that name no net are left out.
pub fn events_of(alloc: Global, scoped: &Scoped<'_>, lines: &[u8]) -> Result<Forces, Memory> {
    let mut events = Vec::new(alloc);
    for line in Lines::new(lines) {
        if let Some(event) = event_of(alloc, scoped, text_of(line.text))? {
            events.push(event)?;
        }
    }
    Ok(Forces::from_vec(events))
}

fn event_of(alloc: Global, scoped: &Scoped<'_>, line: &str) -> Result<Option<Event>, Memory> {
    let (step, rest) = first_word(line);
    let (name, word) = last_word(rest);
    let Some(step) = step.parse::<u32>().ok() else {
        return Ok(None);
    };
    match scoped.net_named(alloc, name)? {
        Some(net) => Ok(Some(Event {
            step,
            net,
            value: value_of(word),
        })),
        None => Ok(None),
    }
}

/// To what a net is forced, none where it is released.
fn value_of(word: &str) -> Option<Value> {
    match word {
        "0" => Some(Value::Zero),
        "1" => Some(Value::One),
        "x" => Some(Value::X),
        "z" => Some(Value::Z),
        _ => None,
    }
}

/// Events as lines.
pub fn lines_of(alloc: Global, scoped: &Scoped<'_>, forces: &Forces) -> Result<Vec<u8>, Memory> {
    let mut lines = Vec::new(alloc);
    for event in forces.as_slice() {
        put_number(&mut lines, u64::from(event.step))?;
        put(&mut lines, b" ")?;
        put(&mut lines, scoped.name_of(alloc, event.net)?.as_slice())?;
        put_value(&mut lines, event.value)?;
    }
    Ok(lines)
}

fn put_value(lines: &mut Vec<u8>, value: Option<Value>) -> Result<(), Memory> {
    match value {
        Some(value) => put(lines, &[b' ', value.letter(), b'\n']),
        None => put(lines, b" release\n"),
    }
}
