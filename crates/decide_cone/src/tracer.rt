//! What the places of cones rest on, kept between traces of a wave that grows.

ghost use Rattle.std.specs.Prelude.{◌≡◌, ◌<◌, ◌^◌, true, length, slice_index_or, option_copied, IfOk, IfSome, IsSome};
ghost use Rattle.std.specs.Prelude.{OnOk};
ghost use Rattle.std.specs.List.{AllByRecursion};
ghost use Rattle.std.specs.List.Sorted.{IsStrictlyIncreasing};
ghost use Rattle.law_model.specs.Places.{among};
ghost use Rattle.wave_proved.specs.Contents.{Contents};
ghost use Rattle.decide_graph.specs.Reached.{AddsAll};
ghost use Rattle.decide_graph.specs.InWave.{IsInReach};
ghost use Rattle.decide_cone.specs.Known.{IsRightOf, IsSameKnown, Keeps, KnowsNothing, known_of, slot_of, body_for};
ghost use Rattle.decide_cone.specs.Placed.{IsPlaced};
ghost use Rattle.decide_graph.specs.Traced.{supports_in};

use crate::descent::insert_supports;
use crate::positions::place_body;
use crate::traced::Traced;
use base_lists::Memory;
use decide_graph::{Reached, TracedBody, trace_place};
use decide_nodes::NodeBody;
use design_cell::Value;
use std::alloc::Global;
use std::marker::Model;
use wave_proved::Wave;

/// How many slots there are at most.
const SLOTS: usize = 262_144;

/// What places rest on, as earlier traces found it: it stays so while the wave grows (`tracers_stay_right`). Each place
/// has a slot by its number, in which the one that came last is kept. Contracts see the slots. Takes some 200 bytes for
/// each of at most 262,144 slots, and the tables of more than 16 values.
#[derive(Drop)]
pub struct Tracer {
    slots: Vec<Option<Traced>>,
    hints: Vec<u32>,
    room: Vec<Value>,
}

impl Model for Tracer {
    ghost use Rattle.decide_cone.specs.Known.{TracerView};

    ghost Value = { TracerView };

    ghost view = { λ tracer. record { slots = tracer.slots.items } };
}

impl Tracer {
    /// Nothing is known.
    pub fn new(alloc: Global) -> Tracer
        ensures nothing { KnowsNothing result }
        ensures right { (c : Contents) → IsRightOf c result }
    {
        Tracer {
            slots: Vec::new(alloc),
            hints: Vec::new(alloc),
            room: Vec::new(alloc),
        }
    }

    /// Finds and keeps what a place rests on, where it isn't known.
    pub(crate) fn find(
        &mut self,
        alloc: Global,
        wave: &Wave<'_>,
        place: usize,
    ) -> Result<(), Memory>
        requires right { IsRightOf wave.now self.old }
        requires reach { IsInReach wave.now place }
        ensures known { OnOk result (IsSome (known_of self.new place)) }
        ensures right { OnOk result (IsRightOf wave.now self.new) }
    {
        match self.known(place) {
            Some(_) => Ok(()),
            None => {
                let body = trace_place(alloc, wave, place, &mut self.room)?;
                self.keep(place, body)?;
                Ok(())
            }
        }
    }

    /// What is known of a place, if anything is.
    fn known(&self, place: usize) -> Option<&TracedBody>
        ensures { option_copied result ≡ known_of self.now place }
    {
        match slot_at(self.slots.as_slice(), slot_of(place)) {
            Some(traced) => body_for(traced, place),
            None => None,
        }
    }

    /// Keeps what a place rests on, in place of what stood in its slot.
    fn keep(&mut self, place: usize, body: TracedBody) -> Result<(), Memory>
        ensures { OnOk result (Keeps self.old place body self.new) }
    {
        let slot = slot_of(place);
        make_slots(&mut self.slots, slot)?;
        make_hints(&mut self.hints, slot)?;
        self.slots[slot] = Some(Traced { place, body });
        Ok(())
    }

    /// The places that a place rests on come in.
    pub(crate) fn insert_supports(&self, reached: &mut Reached, place: usize) -> Result<(), Memory>
        requires { IsSome (known_of self.now place) }
        ensures { OnOk result
            (IfSome (known_of self.now place) (λ body. AddsAll reached.old (supports_in body) reached.new)) }
    {
        match self.known(place) {
            Some(body) => insert_supports(reached, body),
            None => unreachable!(),
        }
    }

    /// What a place rests on, where that is among some places.
    pub(crate) fn place_body(
        &self,
        alloc: Global,
        places: &[usize],
        place: usize,
    ) -> Result<NodeBody, Memory>
        requires known { IsSome (known_of self.now place) }
        requires rising { IsStrictlyIncreasing places.now }
        requires few { length places.now < 2 ^ 27 }
        requires all { IfSome (known_of self.now place)
            (λ body. AllByRecursion (λ k. among places.now k ≡ true) (supports_in body)) }
        ensures { IfOk result (λ made. IfSome (known_of self.now place) (λ body. IsPlaced places.now body made)) }
    {
        match self.known(place) {
            Some(body) => place_body(alloc, self.hints.as_slice(), places, body),
            None => unreachable!(),
        }
    }

    /// A place stands at a position among those of the cone: it is looked for there first.
    pub(crate) fn hint(&mut self, place: usize, position: usize)
        ensures { self.new ≡ self.old }
    {
        let slot = slot_of(place);
        if slot < self.hints.len() && position < SLOTS {
            self.hints[slot] = position as u32;
        }
    }
}

/// The slot of a place.
pub fn slot_of(place: usize) -> usize
    ensures { result ≡ slot_of place }
{
    place % SLOTS
}

/// What stands in a slot, if there is such a slot and something stands there.
fn slot_at(slots: &[Option<Traced>], slot: usize) -> Option<&Traced>
    ensures { option_copied result ≡ slice_index_or slots.now slot None }
{
    if slot >= slots.len() {
        return None;
    }
    match &slots[slot] {
        Some(traced) => Some(traced),
        None => None,
    }
}

/// What a slot has for a place, from what stands there.
fn body_for(traced: &Traced, place: usize) -> Option<&TracedBody>
    ensures { option_copied result ≡ body_for place (Some traced.now) }
{
    if traced.place == place {
        Some(&traced.body)
    } else {
        None
    }
}

/// Makes the slots up to one.
fn make_slots(slots: &mut Vec<Option<Traced>>, slot: usize) -> Result<(), Memory>
    ensures has { OnOk result (slot < length slots.new.items) }
    ensures same { OnOk result (IsSameKnown slots.old.items slots.new.items) }
{
    'slots: while slots.len() <= slot {
        slots.push(None)?;
    }
    Ok(())
}

fn make_hints(hints: &mut Vec<u32>, slot: usize) -> Result<(), Memory> {
    'slots: while hints.len() <= slot {
        hints.push(0)?;
    }
    Ok(())
}
