//! The literals of the values of places.

ghost use Rattle.std.specs.Prelude.{◌≡◌, ◌-◌, ◌<◌, ◌^◌, IfOk, length, map, not, slice_index};
ghost use Rattle.std.specs.List.{All, AllByRecursion};
ghost use Rattle.decide_cnf.specs.Literals.{IsLiteral, literal_at, says};
ghost use Rattle.cert_condition.specs.First.{IsWrittenAmong, StandForPlaces, unit_says};
ghost use Rattle.cert_condition.specs.View.{settled_bit};

use base_lists::Memory;
use decide_cnf::turned;
use decide_cone::position_in;
use design_cell::Value;
use design_circuit::Source;
use std::alloc::Global;
use wave_proved::Wave;

/// The literals of the values of some certain places, from those of places that ascend. Takes four bytes for each.
pub fn unit_literals(
    alloc: Global,
    wave: &Wave<'_>,
    places: &[usize],
    literals: &[i32],
    numbers: &[usize],
) -> Result<Vec<i32>, Memory>
    requires places { StandForPlaces places.now literals.now }
    requires numbers { AllByRecursion (IsWrittenAmong wave.now places.now) numbers.now }
    ensures { IfOk result (λ units. units.items ≡ map (unit_says wave.now places.now literals.now) numbers.now) }
{
    let mut units = Vec::with_capacity(alloc, numbers.len())?;
    'numbers: for number in numbers {
        units.push(unit_literal(wave, places, literals, *number))?;
    }
    Ok(units)
}

fn unit_literal(wave: &Wave<'_>, places: &[usize], literals: &[i32], number: usize) -> i32
    requires places { StandForPlaces places.now literals.now }
    requires number { IsWrittenAmong wave.now places.now number }
    ensures { result ≡ unit_says wave.now places.now literals.now number }
{
    let position = position_in(places, number) as usize;
    literal_for(literals, position, has_one(wave, number))
}

/// The literal that denies the value of the last place.
pub fn denial_of(wave: &Wave<'_>, places: &[usize], literals: &[i32]) -> i32
    requires places { StandForPlaces places.now literals.now }
    requires some { 0 < length places.now }
    requires written { slice_index places.now (length places.now - 1) < length wave.now.written }
    ensures { result
        ≡ says (literal_at literals.now (length literals.now - 1))
        (not (settled_bit wave.now (slice_index places.now (length places.now - 1)))) }
{
    let value = has_one(wave, places[places.len() - 1]);
    literal_for(literals, literals.len() - 1, !value)
}

fn literal_for(literals: &[i32], position: usize, value: bool) -> i32
    requires within { position < length literals.now }
    requires fit { All (IsLiteral (2 ^ 27)) literals.now }
    ensures { result ≡ says (literal_at literals.now position) value }
{
    turned(literals[position], value)
}

/// Whether a place has a certain 1.
fn has_one(wave: &Wave<'_>, number: usize) -> bool
    requires { number < length wave.now.written }
    ensures { result ≡ settled_bit wave.now number }
{
    matches!(Source::value(wave, number), Value::One)
}
