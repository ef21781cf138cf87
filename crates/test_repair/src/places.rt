//! Places of a wave, as words.

ghost use Rattle.std.specs.Prelude.{◌≡◌, ◌<◌, IfOk, IfSome, length};
ghost use Rattle.design_circuit.specs.Fits.{place_at};
ghost use Rattle.wave_proved.specs.Contents.{IsWritten, job};

use crate::words::{first_word, number_of, put};
use base_lists::Memory;
use design_circuit::{Design, Place, Stim, spot_of};
use std::alloc::Global;
use std::fmt::Write;
use wave_proved::Wave;

/// The written place of a number.
pub fn place_of(wave: &Wave<'_>, number: usize) -> Place
    requires { number < length wave.now.written }
    ensures place { result ≡ place_at (job wave.now) number }
    ensures written { IsWritten wave.now result }
{
    let spot = spot_of(&wave.circuit(), number);
    Place {
        step: spot.step as u32,
        net: spot.net as u32,
    }
}

/// The place that words name, `#TIME round ROUND NET` with anything behind.
pub fn named_place(alloc: Global, wave: &Wave<'_>, words: &str) -> Result<Option<Place>, Memory>
    ensures { IfOk result (λ found. IfSome found (IsWritten wave.now)) }
{
    let (time, rest) = first_word(words);
    let (_, rest) = first_word(rest);
    let (round, rest) = first_word(rest);
    let (name, _) = first_word(rest);
    match step_of(wave.stim(), time, round) {
        Some(step) => place_in(alloc, wave, step, name),
        None => Ok(None),
    }
}

/// The place of a net in a step.
fn place_in(alloc: Global, wave: &Wave<'_>, step: u32, name: &str) -> Result<Option<Place>, Memory>
    ensures { IfOk result (λ found. IfSome found (IsWritten wave.now)) }
{
    for number in 0..wave.count() {
        let place = place_of(wave, number);
        if place.step == step && is_named(alloc, wave.design(), place.net, name)? {
            return Ok(Some(place));
        }
    }
    Ok(None)
}

pub fn step_of(stim: &Stim, time: &str, round: &str) -> Option<u32> {
    let time = number_of(time.strip_prefix("#")?);
    let moment = moment_of(stim.times.as_slice(), time)?;
    let round = number_of(round);
    if round >= u64::from(stim.rounds) {
        return None;
    }
    let first = (moment as u64).checked_mul(u64::from(stim.rounds))?;
    u32::try_from(first.checked_add(round)?).ok()
}

fn moment_of(times: &[u64], time: u64) -> Option<usize> {
    for moment in 0..times.len() {
        if times[moment] == time {
            return Some(moment);
        }
    }
    None
}

/// Whether a net has this written name.
fn is_named(alloc: Global, design: &Design, net: u32, name: &str) -> Result<bool, Memory> {
    if net as usize >= design.nets.as_slice().len() {
        return Ok(false);
    }
    let written = design.written_name(alloc, net)?;
    Ok(written.as_slice() == name.as_bytes())
}

/// Puts a place as its words.
pub fn put_place(
    alloc: Global,
    out: &mut String,
    wave: &Wave<'_>,
    place: Place,
) -> Result<(), Memory> {
    put_spot(alloc, out, wave.design(), wave.stim(), place)
}

fn put_spot(
    alloc: Global,
    out: &mut String,
    design: &Design,
    stim: &Stim,
    place: Place,
) -> Result<(), Memory> {
    if place.net as usize >= design.nets.as_slice().len() {
        return put(out, "no net");
    }
    put_step(out, stim, place.step)?;
    put_name(alloc, out, design, place.net)
}

/// Puts the written name of a net.
fn put_name(alloc: Global, out: &mut String, design: &Design, net: u32) -> Result<(), Memory>
    requires { net < length design.now.nets }
{
    let name = design.written_name(alloc, net)?;
    put_bytes(out, name.as_slice())
}

fn put_bytes(out: &mut String, bytes: &[u8]) -> Result<(), Memory> {
    for byte in bytes {
        out.push(*byte as char)?;
    }
    Ok(())
}

fn put_step(out: &mut String, stim: &Stim, step: u32) -> Result<(), Memory> {
    let moment = step.checked_div(stim.rounds).unwrap_or(0);
    let round = step.checked_rem(stim.rounds).unwrap_or(0);
    let time = stim.times.as_slice().get(moment as usize).copied();
    write!(out, "#{} round {round} ", time.unwrap_or(0))?;
    Ok(())
}

/// Puts places with commas between them, or `nothing`.
pub fn put_places(
    alloc: Global,
    out: &mut String,
    wave: &Wave<'_>,
    places: &[Place],
) -> Result<(), Memory> {
    if places.is_empty() {
        return put(out, "nothing");
    }
    for (index, place) in places.iter().enumerate() {
        if index > 0 {
            put(out, ", ")?;
        }
        put_place(alloc, out, wave, *place)?;
    }
    Ok(())
}
