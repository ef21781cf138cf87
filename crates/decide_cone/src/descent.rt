//! The places of a cone, from its root downwards.

ghost use Rattle.std.specs.Prelude.{◌≤◌, ◌^◌, IfOk, OnOk, length};
ghost use Rattle.decide_graph.specs.Reached.{AddsAll};
ghost use Rattle.decide_graph.specs.InWave.{AreTracedIn, IsInReach};
ghost use Rattle.decide_cone.specs.Known.{IsRightOf};
ghost use Rattle.decide_graph.specs.Traced.{supports_in};

use crate::positions::check_few;
use crate::tracer::Tracer;
use base_lists::Memory;
use decide_graph::{Reached, TracedBody};
use std::alloc::Global;
use wave_proved::Wave;

/// The places of a cone, the greatest first: all that reach a place stand behind it, so once it is the greatest that is
/// still to be looked at, nothing more will reach it.
pub fn trace_places(
    alloc: Global,
    wave: &Wave<'_>,
    tracer: &mut Tracer,
    root: usize,
) -> Result<Vec<usize>, Memory>
    requires reach { IsInReach wave.now root }
    requires right { IsRightOf wave.now tracer.old }
    ensures traced { IfOk result (λ traced. AreTracedIn wave.now root traced.items) }
    ensures few { IfOk result (λ traced. length traced.items ≤ 2 ^ 27) }
    ensures right { OnOk result (IsRightOf wave.now tracer.new) }
{
    wave.recall();
    let mut reached = Reached::new(alloc);
    let mut traced = Vec::new(alloc);
    reached.insert(root)?;
    'places: while let Some(place) = reached.take_greatest() {
        tracer.find(alloc, wave, place)?;
        tracer.insert_supports(&mut reached, place)?;
        traced.push(place)?;
    }
    check_few(traced.len())?;
    Ok(traced)
}

/// The places that a place rests on come in.
pub fn insert_supports(reached: &mut Reached, body: &TracedBody) -> Result<(), Memory>
    ensures { OnOk result (AddsAll reached.old (supports_in body.now) reached.new) }
{
    match body {
        TracedBody::Carried(from, _) => reached.insert(*from),
        TracedBody::Rule(arguments, _) => insert_all(reached, arguments.as_slice()),
    }
}

/// Some places come in.
pub fn insert_all(reached: &mut Reached, places: &[usize]) -> Result<(), Memory>
    ensures { OnOk result (AddsAll reached.old places.now reached.new) }
{
    'places: for place in places {
        reached.insert(*place)?;
    }
    Ok(())
}
