//! What is found of a place: its class, its mark, its line, its sources, what its cone reads.

ghost use Rattle.std.specs.Prelude.{IfOk, IfSome};
ghost use Rattle.decide_cone.specs.Boundary.{IsSomeCone};
ghost use Rattle.wave_proved.specs.Contents.{IsWritten};

use crate::pairs::{put_checked, put_pair};
use crate::places::{named_place, put_place, put_places};
use crate::words::{first_word, put, put_number};
use crate::worlds::put_agreement;
use base_lists::Memory;
use decide_cone::{Cone, boundary, certain_boundary, trace_at};
use design_circuit::{Mark, Place};
use law_model::{Body, Class};
use report_bits::counts_of;
use std::alloc::Global;
use wave_proved::Wave;

/// What a line asks for.
#[derive(Clone, Copy)]
enum Verb {
    Lines,
    Counts,
    All,
    Class,
    Mark,
    Line,
    Sources,
    Boundary,
    CertainBoundary,
    Pair,
    CheckPair,
    Other,
}

fn verb_of(word: &str) -> Verb {
    match word {
        "lines" => Verb::Lines,
        "counts" => Verb::Counts,
        "all" => Verb::All,
        "class" => Verb::Class,
        "mark" => Verb::Mark,
        "line" => Verb::Line,
        "sources" => Verb::Sources,
        "boundary" => Verb::Boundary,
        "certain_boundary" => Verb::CertainBoundary,
        "pair" => Verb::Pair,
        "check_pair" => Verb::CheckPair,
        _ => Verb::Other,
    }
}

/// What a line of facts should be.
pub fn answer(alloc: Global, wave: &Wave<'_>, line: &str) -> Result<String, Memory> {
    let mut out = String::new(alloc);
    put_answer(alloc, &mut out, wave, line)?;
    Ok(out)
}

fn put_answer(alloc: Global, out: &mut String, wave: &Wave<'_>, line: &str) -> Result<(), Memory> {
    let (word, rest) = first_word(line);
    match verb_of(word) {
        Verb::Lines => put_number(out, "lines ", wave.lines().len() as u64, ""),
        Verb::Counts => put_counts(alloc, out, wave),
        Verb::All => put_agreement(alloc, out, wave),
        verb => put_named(alloc, out, wave, word, verb, rest),
    }
}

fn put_counts(alloc: Global, out: &mut String, wave: &Wave<'_>) -> Result<(), Memory> {
    let counts = counts_of(alloc, wave)?;
    put_number(out, "counts known ", counts.known, "")?;
    put_number(out, " repaired ", counts.repaired, "")?;
    put_number(out, " unknown ", counts.unknown, "")?;
    put_number(out, " undecided ", counts.undecided, "")
}

/// Puts what is found of the place that words name.
fn put_named(
    alloc: Global,
    out: &mut String,
    wave: &Wave<'_>,
    word: &str,
    verb: Verb,
    words: &str,
) -> Result<(), Memory> {
    let Some(place) = named_place(alloc, wave, words)? else {
        return put(out, "no such place");
    };
    put(out, word)?;
    out.push(' ')?;
    put_place(alloc, out, wave, place)?;
    out.push(' ')?;
    put_found(alloc, out, wave, verb, place)
}

fn put_found(
    alloc: Global,
    out: &mut String,
    wave: &Wave<'_>,
    verb: Verb,
    place: Place,
) -> Result<(), Memory>
    requires { IsWritten wave.now place }
{
    match verb {
        Verb::Class => put_class(alloc, out, wave, place),
        Verb::Mark => put_mark(out, wave, place),
        Verb::Line => put_line(out, wave, place),
        Verb::Sources => put_sources(alloc, out, wave, place),
        Verb::Boundary => put_boundary(alloc, out, wave, place, false),
        Verb::CertainBoundary => put_boundary(alloc, out, wave, place, true),
        Verb::Pair => put_pair(alloc, out, wave, place),
        Verb::CheckPair => put_checked(alloc, out, wave, place),
        _ => put(out, "is not asked for"),
    }
}

fn put_class(alloc: Global, out: &mut String, wave: &Wave<'_>, place: Place) -> Result<(), Memory>
    requires { IsWritten wave.now place }
{
    match wave.class_at(place) {
        Class::Done => put(out, "done"),
        Class::Local(bit) => put(out, if bit { "local 1" } else { "local 0" }),
        Class::Free => put(out, "free"),
        Class::Carried(from, inverted) => put_carried(alloc, out, wave, from, inverted),
        Class::Line => put(out, "line"),
    }
}

fn put_carried(
    alloc: Global,
    out: &mut String,
    wave: &Wave<'_>,
    from: Place,
    inverted: bool,
) -> Result<(), Memory> {
    put(out, "carried ")?;
    put_place(alloc, out, wave, from)?;
    put(out, if inverted { " inverted" } else { "" })
}

fn put_mark(out: &mut String, wave: &Wave<'_>, place: Place) -> Result<(), Memory>
    requires { IsWritten wave.now place }
{
    put(out, mark_word(wave.mark(place)))?;
    out.push(wave.value(place).letter() as char)?;
    Ok(())
}

fn mark_word(mark: Mark) -> &'static str {
    match mark {
        Mark::Certain => "certain ",
        Mark::Unknown => "unknown ",
        Mark::Undecided => "undecided ",
    }
}

fn put_line(out: &mut String, wave: &Wave<'_>, place: Place) -> Result<(), Memory> {
    for line in wave.lines() {
        if line.place == place {
            return put(out, body_word(&line.body));
        }
    }
    put(out, "none")
}

fn body_word(body: &Body) -> &'static str {
    match body {
        Body::Enumerated(false) => "enumerated 0",
        Body::Enumerated(true) => "enumerated 1",
        Body::Refuted(false, _) => "refuted 0",
        Body::Refuted(true, _) => "refuted 1",
        Body::Pair(_, _) => "pair",
        Body::Undecided(_) => "undecided",
    }
}

fn put_sources(alloc: Global, out: &mut String, wave: &Wave<'_>, place: Place) -> Result<(), Memory>
    requires { IsWritten wave.now place }
{
    put(out, "= ")?;
    match cone_of(alloc, wave, place)? {
        Some(cone) => put_places(alloc, out, wave, cone.sources()),
        None => put(out, "no line"),
    }
}

/// Puts the boundary of the cone of a place, or the certain places of it alone.
fn put_boundary(
    alloc: Global,
    out: &mut String,
    wave: &Wave<'_>,
    place: Place,
    certain: bool,
) -> Result<(), Memory>
    requires { IsWritten wave.now place }
{
    put(out, "= ")?;
    match cone_of(alloc, wave, place)? {
        Some(cone) => put_read(alloc, out, wave, &cone, certain),
        None => put(out, "no line"),
    }
}

fn put_read(
    alloc: Global,
    out: &mut String,
    wave: &Wave<'_>,
    cone: &Cone,
    certain: bool,
) -> Result<(), Memory>
    requires { IsSomeCone wave.now cone.now.nodes }
{
    let places = if certain {
        certain_boundary(alloc, wave, cone)?
    } else {
        boundary(alloc, wave, cone)?
    };
    put_places(alloc, out, wave, places.as_slice())
}

/// The cone of a place whose class is line.
#[tactic(auto, using(crate::proofs::WavePlaces::some_cone))]
pub fn cone_of(alloc: Global, wave: &Wave<'_>, place: Place) -> Result<Option<Cone>, Memory>
    requires { IsWritten wave.now place }
    ensures { IfOk result (λ found. IfSome found (λ cone. IsSomeCone wave.now cone.nodes)) }
{
    match wave.class_at(place) {
        Class::Line => Ok(Some(trace_at(alloc, wave, place)?)),
        _ => Ok(None),
    }
}
