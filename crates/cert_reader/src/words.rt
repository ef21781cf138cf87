//! Places, bits and fillings, word by word.

ghost use Rattle.std.specs.Prelude.{◌≡◌, ◌<◌, List, [], ◌∷◌, bytes_eq, length, IfOk, IfSome};
ghost use Rattle.design_circuit.specs.declared.place.Place.{Place as APlace};
ghost use Rattle.cert_reader.specs.Machine.{bit_in_front, number_in_front, place_in_front, place_of_step};
ghost use Rattle.cert_reader.specs.Machine.{places_before, places_to_end};
ghost use Rattle.base_scan.specs.Fronts.{word_in_front};
ghost use Rattle.cert_reader.specs.Reading.{Gives, IsNextBefore, IsNextToEnd, Skips, Takes};

use crate::numbers::short_of;
use crate::pieces::Words;
use crate::refusal::LineErr;
use base_lists::Items;
use base_scan::is_word;
use design_circuit::{Filling, Place};
use std::alloc::Global;

/// Passes over this word.
pub fn expect(words: &mut Words<'_>, word: &[u8]) -> Result<(), LineErr>
    ensures { Skips result (word_in_front word.now words.old) words.new }
{
    let found = words.need()?;
    if is_word(found, word) {
        Ok(())
    } else {
        Err(LineErr::Wrong)
    }
}

/// A number below 2^32.
pub fn number(words: &mut Words<'_>) -> Result<u32, LineErr>
    ensures { Takes result (number_in_front words.old) words.new }
{
    let word = words.need()?;
    match short_of(word) {
        Some(number) => Ok(number),
        None => Err(LineErr::Wrong),
    }
}

// place = number number
#[tactic(auto, unfolding(crate::specs::Machine::place_in_front))]
pub fn place(words: &mut Words<'_>) -> Result<Place, LineErr>
    ensures { Takes result (place_in_front words.old) words.new }
{
    let word = words.need()?;
    place_of_step(word, words)
}

/// A place whose step is this word.
fn place_of_step(word: &[u8], words: &mut Words<'_>) -> Result<Place, LineErr>
    ensures { Takes result (place_of_step word.now words.old) words.new }
{
    match short_of(word) {
        Some(step) => {
            let net = number(words)?;
            Ok(Place { step, net })
        }
        None => Err(LineErr::Wrong),
    }
}

// bit = "0" | "1"
pub fn bit(words: &mut Words<'_>) -> Result<bool, LineErr>
    ensures { Takes result (bit_in_front words.old) words.new }
{
    let word = words.need()?;
    if is_word(word, b"0") {
        return Ok(false);
    }
    if is_word(word, b"1") {
        return Ok(true);
    }
    Err(LineErr::Wrong)
}

// filling ";" = { place } ";"
pub fn filling_before(alloc: Global, words: &mut Words<'_>) -> Result<Filling, LineErr>
    ensures { Takes result (places_before [] words.old) words.new }
{
    let mut places = Vec::new(alloc);
    'places: while let Some(place) = next_before(words)? {
        places.push(place)?;
    }
    Ok(Items::from_vec(places))
}

/// The next place, or none where the mark stands.
fn next_before(words: &mut Words<'_>) -> Result<Option<Place>, LineErr>
    ensures reads { (done : List APlace) → IsNextBefore done result (places_before done words.old) words.new }
    ensures shorter { IfOk result (λ found. IfSome found (λ _. length words.new < length words.old)) }
{
    match words.next() {
        None => Err(LineErr::Wrong),
        Some(word) => place_or_mark(word, words),
    }
}

fn place_or_mark(word: &[u8], words: &mut Words<'_>) -> Result<Option<Place>, LineErr>
    ensures reads { (done : List APlace)
        → IsNextBefore done result (places_before done (word.now ∷ words.old)) words.new }
    ensures shorter { IfOk result (λ found. IfSome found (λ _. length words.new < length words.old)) }
{
    if is_word(word, b";") {
        return Ok(None);
    }
    match place_of_step(word, words) {
        Ok(place) => Ok(Some(place)),
        Err(e) => Err(e),
    }
}

// filling = { place }
pub fn filling_to_end(alloc: Global, words: &mut Words<'_>) -> Result<Filling, LineErr>
    ensures { Gives result (places_to_end [] words.old) }
{
    let mut places = Vec::new(alloc);
    'places: while let Some(place) = next_to_end(words)? {
        places.push(place)?;
    }
    Ok(Items::from_vec(places))
}

/// The next place, or none where no word is left.
fn next_to_end(words: &mut Words<'_>) -> Result<Option<Place>, LineErr>
    ensures reads { (done : List APlace) → IsNextToEnd done result (places_to_end done words.old) words.new }
    ensures shorter { IfOk result (λ found. IfSome found (λ _. length words.new < length words.old)) }
{
    match words.next() {
        None => Ok(None),
        Some(word) => match place_of_step(word, words) {
            Ok(place) => Ok(Some(place)),
            Err(e) => Err(e),
        },
    }
}
