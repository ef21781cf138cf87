//! Whole tables: the rule of a place for all bits of its argument places, certain ones among them.

ghost use Rattle.std.specs.Prelude.{◌≡◌, ◌≤◌, IfOk, length};
ghost use Rattle.design_circuit.specs.Job.{number_of};
ghost use Rattle.wave_proved.specs.Contents.{IsReached, arguments_in, job};
ghost use Rattle.cert_condition.specs.TurnNodes.{AreWholeValues};

use base_lists::Memory;
use design_cell::Value;
use design_circuit::Place;
use std::alloc::Global;
use wave_proved::Wave;

/// The values of the rule of a place, by number: bit k of the number is the bit of argument place k. Takes a byte a
/// value, of at most 2^13.
pub fn whole_values(
    alloc: Global,
    wave: &Wave<'_>,
    place: Place,
    count: usize,
) -> Result<Vec<Value>, Memory>
    requires reached { IsReached wave.now place }
    requires count { count ≡ length (arguments_in wave.now (number_of (job wave.now) place)) }
    requires few { count ≤ 13 }
    ensures { IfOk result (λ values. AreWholeValues wave.now (number_of (job wave.now) place) values.items) }
{
    wave.recall();
    let end: u16 = 1 << count;
    let mut values = Vec::with_capacity(alloc, end as usize)?;
    'numbers: for number in 0..end {
        values.push(wave.rule_value(place, number))?;
    }
    Ok(values)
}
