//! What is shown of the next place without its cone.

ghost use Rattle.std.specs.Prelude.{◌<◌, IfOk, IfSome, length};
ghost use Rattle.decide_lane_nodes.specs.Made.{AreSourcesIn};
ghost use Rattle.decide_lanes.specs.Shown.{GivesNext, HasNextBits, HasNextCone, IsShownNext};
ghost use Rattle.wave_proved.specs.Contents.{next_number};
ghost use Rattle.wave_proved.specs.Token.{HasNext};

use crate::lanes::certain_value;
use base_lists::Memory;
use design_cell::Value;
use law_model::Body;
use std::alloc::Global;
use wave_proved::{Verdict, Wave};

/// What is shown of the next place. It must be spent.
#[must_use]
pub enum Shown {
    /// Two fillings give it 0 and 1, or every filling of its sources, of which there are few, gives it one bit.
    Verdict(Verdict),
    /// No verdict, but the cone of a written place, by its number, has the same bodies as its own.
    Earlier(usize),
    /// Nothing.
    Nothing,
}

/// Every filling gives the next place a bit, which is an enumeration where it has few sources.
pub fn settled_if_few(wave: &Wave<'_>, sources: &[u32], bit: bool) -> Shown
    requires next { HasNext wave.now }
    requires sources { AreSourcesIn wave.now (next_number wave.now) sources.now }
    requires every { GivesNext wave.now bit }
    ensures { IsShownNext wave.now result }
{
    if sources.len() > wave.limits().enumerated as usize {
        return Shown::Nothing;
    }
    Shown::Verdict(Verdict::from_law(wave, Body::Enumerated(bit)))
}

/// What a written place shows of the next one, which has the bit of that place in every world and a cone of the same
/// bodies: its two fillings, or its bit, where the sources are kept and few, or else that place.
pub fn shown_as(
    alloc: Global,
    wave: &Wave<'_>,
    place: usize,
    sources: Option<&[u32]>,
) -> Result<Shown, Memory>
    requires next { HasNext wave.now }
    requires written { place < length wave.now.written }
    requires bits { HasNextBits wave.now place }
    requires cone { HasNextCone wave.now place }
    requires sources { IfSome sources (λ list. AreSourcesIn wave.now (next_number wave.now) list.now) }
    ensures { IfOk result (IsShownNext wave.now) }
{
    wave.recall();
    match certain_value(wave, place) {
        Value::Zero => Ok(settled_as(wave, place, sources, false)),
        Value::One => Ok(settled_as(wave, place, sources, true)),
        Value::X => pair_as(alloc, wave, place),
        Value::Z => pair_as(alloc, wave, place),
    }
}

/// The bit of the written place, if it is certain.
fn settled_as(wave: &Wave<'_>, place: usize, sources: Option<&[u32]>, bit: bool) -> Shown
    requires next { HasNext wave.now }
    requires cone { HasNextCone wave.now place }
    requires sources { IfSome sources (λ list. AreSourcesIn wave.now (next_number wave.now) list.now) }
    requires every { GivesNext wave.now bit }
    ensures { IsShownNext wave.now result }
{
    match sources {
        Some(list) if list.len() <= wave.limits().enumerated as usize => settled_if_few(
            wave, list, bit,
        ),
        Some(_) => Shown::Earlier(place),
        None => Shown::Earlier(place),
    }
}

/// The fillings that the written place has, if it is unknown.
fn pair_as(alloc: Global, wave: &Wave<'_>, place: usize) -> Result<Shown, Memory>
    requires next { HasNext wave.now }
    requires written { place < length wave.now.written }
    requires bits { HasNextBits wave.now place }
    requires cone { HasNextCone wave.now place }
    ensures { IfOk result (IsShownNext wave.now) }
{
    let circuit = wave.circuit();
    match wave.pair_of(alloc, circuit.place_of(place))? {
        Some((zero, one)) => Ok(Shown::Verdict(Verdict::from_law(wave, Body::Pair(zero, one)))),
        None => Ok(Shown::Earlier(place)),
    }
}
