//! What a place of a cone rests on.

ghost use Rattle.std.specs.Prelude.{◌≡◌, false, IfOk};
ghost use Rattle.law_model.specs.Cone.{is_carried};
ghost use Rattle.decide_nodes.specs.OfWave.{class_in};
ghost use Rattle.decide_graph.specs.InWave.{IsBodyIn, IsInReach};

use crate::table::{essential_places, kept_table};
use base_lists::Memory;
use decide_nodes::{Values, Wave};
use design_cell::Value;
use law_model::ClassByNumber;
use std::alloc::Global;
use wave_class::{ArgumentsByNumber, uncertain_places};

/// What a place rests on, by the numbers of places.
#[derive(Drop)]
pub enum TracedBody {
    /// The place that it is carried from, or its complement where the second is true.
    Carried(usize, bool),
    /// Its essential arguments in place order, and its table over them.
    Rule(ArgumentsByNumber, Values),
}

/// What a place that is written, or the next one, rests on. Works in a room that is lent.
pub fn trace_place(
    alloc: Global,
    wave: &Wave<'_>,
    place: usize,
    room: &mut Vec<Value>,
) -> Result<TracedBody, Memory>
    requires { IsInReach wave.now place }
    ensures { IfOk result (IsBodyIn wave.now place) }
{
    match wave.class_by_number(place) {
        ClassByNumber::Carried(from, inverted) => Ok(TracedBody::Carried(from, inverted)),
        ClassByNumber::Local(_) => trace_rule(alloc, wave, place, room),
        ClassByNumber::Free => trace_rule(alloc, wave, place, room),
        ClassByNumber::Line => trace_rule(alloc, wave, place, room),
    }
}

fn trace_rule(
    alloc: Global,
    wave: &Wave<'_>,
    place: usize,
    room: &mut Vec<Value>,
) -> Result<TracedBody, Memory>
    requires reach { IsInReach wave.now place }
    requires free { is_carried (class_in wave.now place) ≡ false }
    ensures { IfOk result (IsBodyIn wave.now place) }
{
    let uncertain = uncertain_places(&wave.circuit(), wave, place);
    let places = uncertain.as_slice();
    let essential = essential_places(wave, place, places, room)?;
    let values = kept_table(alloc, places, essential.as_slice(), room.as_slice())?;
    Ok(TracedBody::Rule(essential, Values::from_vec(values)))
}
