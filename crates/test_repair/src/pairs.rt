//! The fillings that show a place unknown.

ghost use Rattle.std.specs.Bool.{OnTrue};
ghost use Rattle.std.specs.Prelude.{IfOk};
ghost use Rattle.decide_nodes.specs.Traced.{IsNextCone};
ghost use Rattle.wave_proved.specs.Contents.{IsWritten};
ghost use Rattle.wave_proved.specs.Token.{IsLineNext, LineHolds};

use crate::places::put_places;
use crate::words::put;
use base_lists::{Items, Memory};
use decide_cone::{Cone, trace};
use decide_pair::{BadPair, check_pair};
use design_circuit::Place;
use law_model::{Class, Limits};
use std::alloc::Global;
use wave_proved::{Verdict, Wave};

/// Puts the two fillings of a place.
pub fn put_pair(
    alloc: Global,
    out: &mut String,
    wave: &Wave<'_>,
    place: Place,
) -> Result<(), Memory>
    requires { IsWritten wave.now place }
{
    put(out, "= ")?;
    match wave.pair_of(alloc, place)? {
        Some((zero, one)) => put_both(alloc, out, wave, zero.as_slice(), one.as_slice()),
        None => put(out, "none"),
    }
}

fn put_both(
    alloc: Global,
    out: &mut String,
    wave: &Wave<'_>,
    zero: &[Place],
    one: &[Place],
) -> Result<(), Memory> {
    put_places(alloc, out, wave, zero)?;
    put(out, " and ")?;
    put_places(alloc, out, wave, one)
}

/// Puts how two empty fillings are refused at a place, which is the first whose class is line.
pub fn put_checked(
    alloc: Global,
    out: &mut String,
    wave: &Wave<'_>,
    place: Place,
) -> Result<(), Memory> {
    match first_line(alloc, wave)? {
        Some(reached) => put_refusal(alloc, out, reached, place),
        None => put(out, "is not reached"),
    }
}

/// The wave up to the first place whose class is line.
fn first_line<'a>(alloc: Global, wave: &Wave<'a>) -> Result<Option<Wave<'a>>, Memory> {
    let unwritten = unwritten(alloc, wave)?;
    Ok(unwritten.advance_to_line().ok())
}

/// The wave of which nothing is written.
fn unwritten<'a>(alloc: Global, wave: &Wave<'a>) -> Result<Wave<'a>, Memory> {
    Wave::new(
        alloc,
        wave.circuit(),
        wave.replayed(),
        Limits {
            conflicts: 1,
            enumerated: 12,
        },
    )
}

fn put_refusal(
    alloc: Global,
    out: &mut String,
    reached: Wave<'_>,
    place: Place,
) -> Result<(), Memory> {
    if !is_line_at(&reached, place) {
        return put(out, "is not the first");
    }
    put(out, refusal_of(alloc, reached))
}

/// Whether the next place is this one, and its class line.
fn is_line_at(wave: &Wave<'_>, place: Place) -> bool
    ensures { OnTrue result (IsLineNext wave.now) }
{
    wave.class() == Class::Line && wave.next_place() == Some(place)
}

fn refusal_of(alloc: Global, wave: Wave<'_>) -> &'static str
    requires { IsLineNext wave }
{
    match empty_pair(alloc, &wave) {
        Ok(verdict) => {
            let _ = wave.write(verdict);
            "is a pair"
        }
        Err(BadPair::NotZero) => "not zero",
        Err(BadPair::NotOne) => "not one",
        Err(BadPair::Memory) => "memory",
    }
}

fn empty_pair(alloc: Global, wave: &Wave<'_>) -> Result<Verdict, BadPair>
    requires { IsLineNext wave.now }
    ensures { IfOk result (LineHolds wave.now) }
{
    let cone = trace(alloc, wave)?;
    checked_pair(alloc, wave, &cone)
}

fn checked_pair(alloc: Global, wave: &Wave<'_>, cone: &Cone) -> Result<Verdict, BadPair>
    requires { IsNextCone wave.now cone.now.nodes }
    ensures { IfOk result (LineHolds wave.now) }
{
    let zero = Items::from_vec(Vec::new(alloc));
    let one = Items::from_vec(Vec::new(alloc));
    check_pair(alloc, wave, cone, zero, one)
}
