//! The condition of a certain Line place of a wave, with which its turns begin.

ghost use Rattle.std.specs.Prelude.{◌≡◌, [], IfOk, OnOk};
ghost use Rattle.cert_condition.specs.Known.{IsRightOf};
ghost use Rattle.cert_turns.specs.Conditions.{IsConditionAt, IsCertainLine};

use base_lists::Memory;
use cert_condition::{Condition, Tracer};
use design_circuit::Place;
use std::alloc::Global;
use wave_proved::Wave;

/// The condition of a certain Line place that is written, with no turn made. What the tracer finds on the way is kept.
/// Takes memory as `Condition::new` does, and that of the place's cone.
pub fn begin_at(
    alloc: Global,
    wave: &Wave<'_>,
    tracer: &mut Tracer,
    place: Place,
) -> Result<Condition, Memory>
    requires settled { IsCertainLine wave.now place }
    requires right { IsRightOf wave.now tracer.old }
    ensures condition { IfOk result (IsConditionAt wave.now place) }
    ensures none { IfOk result (λ condition. condition.turns ≡ []) }
    ensures right { OnOk result (IsRightOf wave.now tracer.new) }
{
    let cone = tracer.trace_at(alloc, wave, place)?;
    Condition::new(alloc, wave, cone)
}
