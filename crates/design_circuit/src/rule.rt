//! The rule of a place: what earlier places make of it in the circuit of zeros and ones.

ghost use Rattle.std.specs.Prelude.{◌≡◌, ℕ, ◌+◌, ◌*◌, ◌<◌, ◌≤◌, ◌^◌, length};
ghost use Rattle.design_cell.specs.declared.value.Value.{Value as AnyValue};
ghost use Rattle.design_circuit.specs.Circuit.{job_in, IsSpot, Reach};
ghost use Rattle.design_circuit.specs.Fits.{Standing, FitsDriver, FitsRegister, FitsTable};
ghost use Rattle.design_circuit.specs.Job.{places_of};
ghost use Rattle.design_circuit.specs.Order.{arguments_of_driver};
ghost use Rattle.design_circuit.specs.Replay.{table_of};
ghost use Rattle.design_circuit.specs.Rule.{born, known_or, register_rule, remade, rule, rule_of};

use crate::circuit::Circuit;
use crate::design::{Driver, Latching, Table};
use crate::driven::cell_value;
use crate::reads::{AsValues, BitSource, Source, net_value};
use crate::register::{clock_is_uncertain, hold_value, updated_value};
use crate::spot::{Spot, driver_at, recorded_at, spot_of, start_at};
use crate::stim::Levels;
use design_cell::{Value, gate_value};

/// What the certain values and the bits of the places before a place make of it.
#[tactic(auto, unfolding(crate::specs::Rule::rule))]
pub fn rule_value<C: Source, B: BitSource>(
    circuit: &Circuit<'_>,
    certain: &C,
    bits: &B,
    place: usize,
) -> Value
    requires within { place < places_of (job_in circuit.now) }
    requires certain { (k : ℕ) → k < place → C.has certain.now k }
    requires bits { (k : ℕ) → k < place → B.has bits.now k }
    ensures { result ≡ rule (job_in circuit.now) (C.reads certain.now) (B.bits bits.now) place }
{
    let spot = spot_of(circuit, place);
    ruled_value(
        circuit,
        certain,
        bits,
        place,
        spot,
        driver_at(circuit, spot.net),
    )
}

fn ruled_value<C: Source, B: BitSource>(
    circuit: &Circuit<'_>,
    certain: &C,
    bits: &B,
    place: usize,
    spot: Spot,
    driver: &Driver,
) -> Value
    requires spot { IsSpot (job_in circuit.now) place spot }
    requires before { Standing (job_in circuit.now) spot.position (arguments_of_driver driver.now) }
    requires driver { FitsDriver (job_in circuit.now).udps (job_in circuit.now).width driver.now }
    requires is { driver.now ≡ (job_in circuit.now).driver spot.net }
    requires certain { (k : ℕ) → k < place → C.has certain.now k }
    requires bits { (k : ℕ) → k < place → B.has bits.now k }
    ensures { result ≡
        rule_of (job_in circuit.now) (C.reads certain.now) (B.bits bits.now) spot.step spot.net driver.now }
{
    match driver {
        Driver::Input => {
            let recorded = recorded_at(circuit, spot.step, spot.net);
            value_known_or(recorded, born_value(circuit, bits, place, spot))
        }
        Driver::Undriven => born_value(circuit, bits, place, spot),
        Driver::Constant(bit) => Value::from_bit(*bit),
        Driver::Copy(net) => net_value(circuit, &AsValues { source: bits }, spot.step, *net),
        Driver::Cell(table, pins) => cell_value(
            circuit,
            &AsValues { source: bits },
            place,
            spot,
            *table,
            pins.as_slice(),
        ),
        Driver::Register(latching) => register_value(circuit, certain, bits, place, spot, latching),
    }
}

fn value_known_or(value: Value, other: Value) -> Value
    ensures { result ≡ known_or value other }
{
    if value.is_known() { value } else { other }
}

fn born_value<B: BitSource>(circuit: &Circuit<'_>, bits: &B, place: usize, spot: Spot) -> Value
    requires spot { IsSpot (job_in circuit.now) place spot }
    requires bits { (k : ℕ) → k < place → B.has bits.now k }
    ensures { result ≡ born (job_in circuit.now) (B.bits bits.now) spot.step spot.net }
{
    if circuit.begins_moment(spot.step) {
        Value::X
    } else {
        net_value(
            circuit,
            &AsValues { source: bits },
            spot.step - 1,
            spot.net as u32,
        )
    }
}

/// The value of a cell's table.
pub fn table_value(circuit: &Circuit<'_>, table: Table, values: &[Value]) -> Value
    requires { FitsTable (job_in circuit.now).udps table (length values.now) }
    ensures { result ≡ table_of (job_in circuit.now).udps table values.now }
{
    match table {
        Table::Gate(gate) => gate_value(gate, values),
        Table::Udp(number) => circuit.design.udps.as_slice()[number as usize].look(values),
    }
}

fn register_value<C: Source, B: BitSource>(
    circuit: &Circuit<'_>,
    certain: &C,
    bits: &B,
    place: usize,
    spot: Spot,
    latching: &Latching,
) -> Value
    requires spot { IsSpot (job_in circuit.now) place spot }
    requires register { FitsRegister (job_in circuit.now).udps (job_in circuit.now).width latching.now }
    requires certain { (k : ℕ) → k < place → C.has certain.now k }
    requires bits { (k : ℕ) → k < place → B.has bits.now k }
    ensures { result ≡
        register_rule (job_in circuit.now) (C.reads certain.now) (B.bits bits.now) spot.step spot.net latching.now }
{
    let values = AsValues { source: bits };
    if spot.step == 0 {
        start_at(circuit, spot.net)
    } else if clock_is_uncertain(circuit, certain, spot.step, latching) {
        let kept = net_value(circuit, certain, spot.step - 1, spot.net as u32);
        remade_value(circuit, certain, kept, spot.step, latching)
    } else {
        let kept = net_value(circuit, &values, spot.step - 1, spot.net as u32);
        remade_value(circuit, &values, kept, spot.step, latching)
    }
}

/// What a register makes at a later step of the values at its pins and of its own one step back.
pub fn remade_value<S: Source>(
    circuit: &Circuit<'_>,
    source: &S,
    kept: Value,
    step: usize,
    latching: &Latching,
) -> Value
    requires register { FitsRegister (job_in circuit.now).udps (job_in circuit.now).width latching.now }
    requires later { 0 < step }
    requires has { (place : ℕ) → place < step * (job_in circuit.now).width → S.has source.now place }
    requires small { step * (job_in circuit.now).width ≤ 2 ^ 40 }
    ensures { result ≡ remade (job_in circuit.now) (S.reads source.now) kept step latching.now }
{
    let updated = updated_value(circuit, source, kept, step, latching);
    match circuit.stim.rules.levels {
        Levels::Change => updated,
        Levels::Hold => value_known_or(hold_value(circuit, source, step, latching), updated),
    }
}
