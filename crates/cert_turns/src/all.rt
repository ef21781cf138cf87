//! The conditions of all certain Line places of a wave.

ghost use Rattle.std.specs.Prelude.{◌≡◌, IfOk, OnOk};
ghost use Rattle.cert_condition.specs.Known.{IsRightOf};
ghost use Rattle.cert_turns.specs.Conditions.{AreConditionsIn, IsFinishedAt, IsCertainLine, gives_bit};

use crate::begin::begin_at;
use base_lists::Memory;
use cert_condition::{Condition, Tracer, finish};
use design_circuit::Place;
use law_model::Body;
use std::alloc::Global;
use wave_proved::Wave;

/// The condition of each certain Line place of a wave, in place order, with all its turns made by searches of at most
/// as many clauses as the limit of the wave. Takes the memory of the conditions, and that of one cone and one search at
/// a time.
pub fn conditions_of(alloc: Global, wave: &Wave<'_>) -> Result<Vec<Condition>, Memory>
    ensures { IfOk result (λ conditions. AreConditionsIn wave.now conditions.items) }
{
    wave.recall();
    let lines = wave.lines();
    let mut tracer = Tracer::new(alloc);
    let mut conditions = Vec::new(alloc);
    'lines: for place in 0..lines.len() {
        let line = &lines[place];
        if gives_bit(&line.body) {
            conditions.push(finished_at(alloc, wave, &mut tracer, line.place)?)?;
        }
    }
    Ok(conditions)
}

fn gives_bit(body: &Body) -> bool
    ensures { result ≡ gives_bit body.now }
{
    match body {
        Body::Enumerated(_) => true,
        Body::Refuted(..) => true,
        Body::Pair(..) => false,
        Body::Undecided(_) => false,
    }
}

/// The condition of a certain Line place, with all its turns made.
fn finished_at(
    alloc: Global,
    wave: &Wave<'_>,
    tracer: &mut Tracer,
    place: Place,
) -> Result<Condition, Memory>
    requires settled { IsCertainLine wave.now place }
    requires right { IsRightOf wave.now tracer.old }
    ensures condition { IfOk result (IsFinishedAt wave.now place) }
    ensures right { OnOk result (IsRightOf wave.now tracer.new) }
{
    wave.recall();
    let condition = begin_at(alloc, wave, tracer, place)?;
    finish(alloc, condition, wave.limits().conflicts)
}
