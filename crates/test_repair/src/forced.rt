//! Forces: a force and its release, as words.

ghost use Rattle.std.specs.Prelude.{◌≡◌, IfOk};
ghost use Rattle.std.specs.Bool.{OnTrue};
ghost use Rattle.design_circuit.specs.Circuit.{job_in};
ghost use Rattle.design_circuit.specs.Filling.{IsPlace};
ghost use Rattle.design_circuit.specs.Force.{AreEvents, place_of};
ghost use Rattle.design_circuit.specs.Job.{number_of};

use crate::places::step_of;
use crate::replayed::net_named;
use crate::words::{first_word, is_word};
use base_lists::Memory;
use design_cell::Value;
use design_circuit::{Circuit, Event, Forces, Place, width_of};
use std::alloc::Global;

/// The forces of two lines, `force #TIME round ROUND NET VALUE` and `release #TIME round ROUND NET`, the first at a
/// place before that of the other; none where that isn't so.
pub fn forces_of(alloc: Global, circuit: &Circuit<'_>, lines: &str) -> Result<Forces, Memory>
    ensures { IfOk result (AreEvents (job_in circuit.now)) }
{
    let (force, release) = lines.split_once('\n').unwrap_or((lines, ""));
    let first = event_of(alloc, circuit, force)?;
    let second = event_of(
        alloc,
        circuit,
        release.strip_suffix("\n").unwrap_or(release),
    )?;
    match (first, second) {
        (Some(first), Some(second)) => events_of(alloc, circuit, first, second),
        _ => Ok(Forces::empty(alloc)),
    }
}

/// The event of a line.
fn event_of(alloc: Global, circuit: &Circuit<'_>, line: &str) -> Result<Option<Event>, Memory> {
    let (verb, rest) = first_word(line);
    let (time, rest) = first_word(rest);
    let (_, rest) = first_word(rest);
    let (round, rest) = first_word(rest);
    match step_of(circuit.stim, time, round) {
        Some(step) => event_in(alloc, circuit, step, is_word(verb, "force"), rest),
        None => Ok(None),
    }
}

/// The event of the words `NET VALUE` or `NET` in a step.
fn event_in(
    alloc: Global,
    circuit: &Circuit<'_>,
    step: u32,
    forces: bool,
    words: &str,
) -> Result<Option<Event>, Memory> {
    let (name, letter) = first_word(words);
    let Some(net) = net_named(alloc, circuit, name)? else {
        return Ok(None);
    };
    let value = if forces { Some(value_of(letter)) } else { None };
    Ok(Some(Event { step, net, value }))
}

fn value_of(letter: &str) -> Value {
    match letter {
        "0" => Value::Zero,
        "1" => Value::One,
        "z" => Value::Z,
        _ => Value::X,
    }
}

/// Two events, the first at a place before that of the other; none where that isn't so.
fn events_of(
    alloc: Global,
    circuit: &Circuit<'_>,
    first: Event,
    second: Event,
) -> Result<Forces, Memory>
    ensures { IfOk result (AreEvents (job_in circuit.now)) }
{
    if !is_place(circuit, place_of(first)) || !is_place(circuit, place_of(second)) {
        return Ok(Forces::empty(alloc));
    }
    if number_of(circuit, place_of(first)) >= number_of(circuit, place_of(second)) {
        return Ok(Forces::empty(alloc));
    }
    Ok(Forces::from_vec([first, second].to_vec(alloc)?))
}

fn place_of(event: Event) -> Place
    ensures { result ≡ place_of event }
{
    Place {
        step: event.step,
        net: event.net,
    }
}

/// The number of a place.
fn number_of(circuit: &Circuit<'_>, place: Place) -> usize
    requires within { IsPlace (job_in circuit.now) place }
    ensures { result ≡ number_of (job_in circuit.now) place }
{
    place.step as usize * width_of(circuit) + circuit.order.position(place.net) as usize
}

/// Whether a place is one of the job.
pub fn is_place(circuit: &Circuit<'_>, place: Place) -> bool
    ensures { OnTrue result (IsPlace (job_in circuit.now) place) }
{
    let steps = circuit.stim.times.as_slice().len() * circuit.stim.rounds as usize;
    (place.step as usize) < steps && (place.net as usize) < width_of(circuit)
}
