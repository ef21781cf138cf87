//! Places against the worlds of all fillings of their sources.

ghost use Rattle.std.specs.Prelude.{◌<◌, IfOk, length};
ghost use Rattle.design_circuit.specs.Filling.{IsFilling};
ghost use Rattle.wave_proved.specs.Contents.{IsWritten, job};
ghost use Rattle.wave_world.specs.View.{HasWritten};

use crate::facts::cone_of;
use crate::fillings::{bits_of, filling_of};
use crate::places::{place_of, put_place};
use crate::words::{put, put_number};
use base_lists::Memory;
use decide_cone::Cone;
use design_cell::Value;
use design_circuit::{Filling, Mark, Place};
use law_model::Class;
use std::alloc::{AllocError, Global};
use wave_proved::Wave;
use wave_world::{World, fill};

/// More sources are too many to try.
const SOURCES: usize = 10;

/// What the worlds gave a place so far.
#[derive(Clone, Copy)]
struct Given {
    zero: bool,
    one: bool,
}

/// Puts whether the places agree with all worlds, or the first that doesn't.
pub fn put_agreement(alloc: Global, out: &mut String, wave: &Wave<'_>) -> Result<(), Memory> {
    let cones = cones_of(alloc, wave)?;
    put_agreeing(alloc, out, wave, cones.as_slice())
}

/// The same, with the cones.
fn put_agreeing(
    alloc: Global,
    out: &mut String,
    wave: &Wave<'_>,
    cones: &[Option<Cone>],
) -> Result<(), Memory> {
    let sources = sources_of(alloc, wave, cones)?;
    let count = count_true(sources.as_slice());
    if count > SOURCES {
        return put_number(out, "all ", count as u64, " sources are too many");
    }
    put_tried(alloc, out, wave, cones, sources.as_slice(), 1 << count)
}

fn count_true(bits: &[bool]) -> usize {
    let mut count = 0usize;
    for bit in bits {
        count = count.saturating_add(usize::from(*bit));
    }
    count
}

/// The same, with so many fillings of the sources.
fn put_tried(
    alloc: Global,
    out: &mut String,
    wave: &Wave<'_>,
    cones: &[Option<Cone>],
    sources: &[bool],
    fillings: u64,
) -> Result<(), Memory> {
    let mut given = nothing_given(alloc, wave.count())?;
    match try_fillings(alloc, wave, cones, sources, fillings, given.as_mut_slice())? {
        Some((number, place)) => put_differing(alloc, out, wave, number, place),
        None => put_marks(alloc, out, wave, given.as_slice()),
    }
}

fn put_differing(
    alloc: Global,
    out: &mut String,
    wave: &Wave<'_>,
    number: u64,
    place: Place,
) -> Result<(), Memory> {
    put_number(out, "all worlds of filling ", number, " differ at ")?;
    put_place(alloc, out, wave, place)
}

fn nothing_given(alloc: Global, count: usize) -> Result<Vec<Given>, AllocError> {
    let nothing = Given {
        zero: false,
        one: false,
    };
    vec![in alloc; nothing; count]
}

/// Notes what the worlds of so many fillings give; the first filling with a place at which its worlds or its cone
/// differ.
fn try_fillings(
    alloc: Global,
    wave: &Wave<'_>,
    cones: &[Option<Cone>],
    sources: &[bool],
    fillings: u64,
    given: &mut [Given],
) -> Result<Option<(u64, Place)>, Memory> {
    for number in 0..fillings {
        if let Some(place) = try_filling(alloc, wave, cones, sources, number, given)? {
            return Ok(Some((number, place)));
        }
    }
    Ok(None)
}

/// Puts whether the marks are what the worlds gave.
fn put_marks(
    alloc: Global,
    out: &mut String,
    wave: &Wave<'_>,
    given: &[Given],
) -> Result<(), Memory> {
    match first_wrong(alloc, wave, given)? {
        Some(place) => {
            put(out, "all marks but that of ")?;
            put_place(alloc, out, wave, place)
        }
        None => put_number(out, "all ", wave.count() as u64, " places agree"),
    }
}

/// The cone of each place whose class is line.
fn cones_of(alloc: Global, wave: &Wave<'_>) -> Result<Vec<Option<Cone>>, Memory> {
    let mut cones = Vec::new(alloc);
    for number in 0..wave.count() {
        cones.push(cone_of(alloc, wave, place_of(wave, number))?)?;
    }
    Ok(cones)
}

/// Which places are sources: the free ones, and those that are a source of their own cone.
fn sources_of(alloc: Global, wave: &Wave<'_>, cones: &[Option<Cone>]) -> Result<Vec<bool>, Memory> {
    let mut sources = Vec::new(alloc);
    for number in 0..wave.count() {
        sources.push(is_source(wave, cones, number))?;
    }
    Ok(sources)
}

fn is_source(wave: &Wave<'_>, cones: &[Option<Cone>], number: usize) -> bool
    requires { number < length wave.now.written }
{
    match cones.get(number) {
        Some(Some(cone)) => is_own_source(cone),
        _ => wave.class_at(place_of(wave, number)) == Class::Free,
    }
}

fn is_own_source(cone: &Cone) -> bool {
    match cone.nodes().last() {
        Some(node) => node.is_source(),
        None => false,
    }
}

/// Notes what the world of a filling gives; a place that has another bit where all that are no sources are filled, or
/// another by its cone.
fn try_filling(
    alloc: Global,
    wave: &Wave<'_>,
    cones: &[Option<Cone>],
    sources: &[bool],
    number: u64,
    given: &mut [Given],
) -> Result<Option<Place>, Memory> {
    let filling = numbered_filling(alloc, wave, sources, number, false)?;
    let other = numbered_filling(alloc, wave, sources, number, true)?;
    try_worlds(alloc, wave, cones, &filling, &other, given)
}

fn try_worlds(
    alloc: Global,
    wave: &Wave<'_>,
    cones: &[Option<Cone>],
    filling: &Filling,
    other: &Filling,
    given: &mut [Given],
) -> Result<Option<Place>, Memory>
    requires filling { IsFilling (job wave.now) filling.now }
    requires other { IsFilling (job wave.now) other.now }
{
    let world = fill(alloc, wave, filling)?;
    match note_world(alloc, wave, &world, other, given)? {
        Some(place) => Ok(Some(place)),
        None => first_other(alloc, wave, cones, filling, &world),
    }
}

/// The filling of a number, with a bit for each place that is no source.
fn numbered_filling(
    alloc: Global,
    wave: &Wave<'_>,
    sources: &[bool],
    number: u64,
    others: bool,
) -> Result<Filling, Memory>
    ensures { IfOk result (IsFilling (job wave.now)) }
{
    let bits = bits_of(alloc, sources, number, others)?;
    filling_of(alloc, wave, bits.as_slice())
}

/// Notes the bits of a world, up to the first that is another in the world of another filling.
fn note_world(
    alloc: Global,
    wave: &Wave<'_>,
    world: &World,
    filling: &Filling,
    given: &mut [Given],
) -> Result<Option<Place>, Memory>
    requires world { HasWritten wave.now world.now }
    requires filling { IsFilling (job wave.now) filling.now }
{
    let other = fill(alloc, wave, filling)?;
    Ok(note_worlds(wave, world, &other, given))
}

/// Notes the bits of a world, up to the first that is another in another world.
fn note_worlds(wave: &Wave<'_>, world: &World, other: &World, given: &mut [Given]) -> Option<Place>
    requires world { HasWritten wave.now world.now }
    requires other { HasWritten wave.now other.now }
{
    for number in 0..wave.count() {
        let place = place_of(wave, number);
        let bit = world.value(place);
        if bit != other.value(place) {
            return Some(place);
        }
        note_bit(given, number, bit);
    }
    None
}

fn note_bit(given: &mut [Given], number: usize, bit: bool) {
    if let Some(given) = given.get_mut(number) {
        given.zero |= !bit;
        given.one |= bit;
    }
}

/// The first place whose cone gives another bit than the world.
fn first_other(
    alloc: Global,
    wave: &Wave<'_>,
    cones: &[Option<Cone>],
    filling: &Filling,
    world: &World,
) -> Result<Option<Place>, Memory>
    requires { HasWritten wave.now world.now }
{
    for number in 0..wave.count() {
        let place = place_of(wave, number);
        let bit = world.value(place);
        if let Some(Some(cone)) = cones.get(number) {
            if cone.value(alloc, filling)? != bit {
                return Ok(Some(place));
            }
        }
    }
    Ok(None)
}

/// The first place whose mark, value or pair is another than the worlds say.
fn first_wrong(alloc: Global, wave: &Wave<'_>, given: &[Given]) -> Result<Option<Place>, Memory> {
    for number in 0..wave.count() {
        let place = place_of(wave, number);
        if !is_right(alloc, wave, place, given.get(number).copied())? {
            return Ok(Some(place));
        }
    }
    Ok(None)
}

fn is_right(
    alloc: Global,
    wave: &Wave<'_>,
    place: Place,
    given: Option<Given>,
) -> Result<bool, Memory>
    requires { IsWritten wave.now place }
{
    let Some(given) = given else {
        return Ok(false);
    };
    match (given.zero, given.one) {
        (true, true) => is_unknown(alloc, wave, place),
        (false, true) => Ok(is_certain(wave, place, Value::One)),
        (true, false) => Ok(is_certain(wave, place, Value::Zero)),
        (false, false) => Ok(false),
    }
}

fn is_certain(wave: &Wave<'_>, place: Place, value: Value) -> bool
    requires { IsWritten wave.now place }
{
    wave.mark(place) == Mark::Certain && wave.value(place) == value
}

/// Whether it is marked unknown, and its fillings give 0 and 1.
fn is_unknown(alloc: Global, wave: &Wave<'_>, place: Place) -> Result<bool, Memory>
    requires { IsWritten wave.now place }
{
    match wave.pair_of(alloc, place)? {
        Some((zero, one)) => give_both(alloc, wave, place, &zero, &one),
        None => Ok(false),
    }
}

fn give_both(
    alloc: Global,
    wave: &Wave<'_>,
    place: Place,
    zero: &Filling,
    one: &Filling,
) -> Result<bool, Memory>
    requires place { IsWritten wave.now place }
    requires zero { IsFilling (job wave.now) zero.now }
    requires one { IsFilling (job wave.now) one.now }
{
    let low = bit_of(alloc, wave, place, zero)?;
    let high = bit_of(alloc, wave, place, one)?;
    Ok(!low && high && wave.mark(place) == Mark::Unknown)
}

/// The bit of a place in the world of a filling.
fn bit_of(alloc: Global, wave: &Wave<'_>, place: Place, filling: &Filling) -> Result<bool, Memory>
    requires place { IsWritten wave.now place }
    requires filling { IsFilling (job wave.now) filling.now }
{
    let world = fill(alloc, wave, filling)?;
    Ok(world.value(place))
}
