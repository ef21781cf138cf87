//! The lines of conditions.

ghost use Rattle.std.specs.Prelude.{◌≡◌, ◌++◌, OnOk};
ghost use Rattle.std.specs.List.{AllByRecursion, flat_map};
ghost use Rattle.report_listing.specs.Conditions as spec;
ghost use Rattle.wave_proved.specs.Contents.{IsWritten};

use crate::places::put_timed;
use base_lists::{Memory, put, put_number};
use cert_condition::Condition;
use design_circuit::{Place, Source};
use std::alloc::Global;
use wave_proved::Wave;

/// A line for each condition, in their order: its place with its value, and the certain places that this value needs.
///
/// Takes the text's bytes, and the memory of a name at a time.
pub fn put_conditions(
    alloc: Global,
    text: &mut Vec<u8>,
    wave: &Wave<'_>,
    conditions: &[Condition],
) -> Result<(), Memory>
    requires { AllByRecursion (spec.IsSomeCondition wave.now) conditions.now }
    ensures { OnOk result (text.new.items ≡ text.old.items ++ spec.conditions_text wave.now conditions.now) }
{
    'conditions: for condition in conditions {
        put_condition(alloc, text, wave, condition)?;
    }
    Ok(())
}

// line = "condition " valued " needs " needs
fn put_condition(
    alloc: Global,
    text: &mut Vec<u8>,
    wave: &Wave<'_>,
    condition: &Condition,
) -> Result<(), Memory>
    requires { spec.IsSomeCondition wave.now condition.now }
    ensures { OnOk result (text.new.items ≡ text.old.items ++ spec.condition_line wave.now condition.now) }
{
    put(text, b"condition ")?;
    put_valued(alloc, text, wave, condition.place())?;
    put(text, b" needs ")?;
    put_needs(
        alloc,
        text,
        wave,
        condition.boundary().len(),
        condition.places(),
    )?;
    put(text, b"\n")
}

// needs = "all " number | places
#[tactic(auto, unfolding(crate::specs::Conditions::needs_text))]
fn put_needs(
    alloc: Global,
    text: &mut Vec<u8>,
    wave: &Wave<'_>,
    count: usize,
    places: &[Place],
) -> Result<(), Memory>
    requires { AllByRecursion (IsWritten wave.now) places.now }
    ensures { OnOk result (text.new.items ≡ text.old.items ++ spec.needs_text wave.now count places.now) }
{
    if count > 64 {
        put(text, b"all ")?;
        put_number(text, count as u64)
    } else {
        put_places(alloc, text, wave, places)
    }
}

// places = "none" | valued { " ; " valued }
fn put_places(
    alloc: Global,
    text: &mut Vec<u8>,
    wave: &Wave<'_>,
    places: &[Place],
) -> Result<(), Memory>
    requires { AllByRecursion (IsWritten wave.now) places.now }
    ensures { OnOk result (text.new.items ≡ text.old.items ++ spec.places_text wave.now places.now) }
{
    match places.split_first() {
        Some((first, rest)) => {
            put_valued(alloc, text, wave, *first)?;
            put_rest(alloc, text, wave, rest)
        }
        None => put(text, b"none"),
    }
}

fn put_rest(
    alloc: Global,
    text: &mut Vec<u8>,
    wave: &Wave<'_>,
    places: &[Place],
) -> Result<(), Memory>
    requires { AllByRecursion (IsWritten wave.now) places.now }
    ensures { OnOk result (text.new.items ≡ text.old.items ++ flat_map (spec.next_text wave.now) places.now) }
{
    'places: for place in places {
        put(text, b" ; ")?;
        put_valued(alloc, text, wave, *place)?;
    }
    Ok(())
}

// valued = timed " " digit
#[tactic(auto, unfolding(crate::specs::Conditions::valued_text))]
fn put_valued(
    alloc: Global,
    text: &mut Vec<u8>,
    wave: &Wave<'_>,
    place: Place,
) -> Result<(), Memory>
    requires { IsWritten wave.now place }
    ensures { OnOk result (text.new.items ≡ text.old.items ++ spec.valued_text wave.now place) }
{
    put_timed(alloc, text, wave, place)?;
    put(text, b" ")?;
    let number = wave.circuit().number_of(place);
    put(text, &[Source::value(wave, number).letter()])
}
