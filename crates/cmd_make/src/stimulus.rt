//! The stimulus of a made job.

ghost use Rattle.std.specs.Prelude.{◌≡◌, ◌*◌, ◌<◌, ℕ, [], IfOk, length, slice_index_or};
ghost use Rattle.design_cell.specs.declared.value.Value.TheVariants.{X};
ghost use Rattle.design_circuit.specs.Design.{FitsDesign};
ghost use Rattle.design_circuit.specs.Stim.{FitsStim};
ghost use Rattle.recording_binding.specs.StimOf.{IsRow};
ghost use Rattle.cmd_make.specs.Netlist.{after_gates, after_netlist};
ghost use Rattle.cmd_make.specs.Draw.{after_draws};
ghost use Rattle.cmd_make.specs.Stimulus as spec;

use crate::draws::Draws;
use crate::inputs::moment_values;
use crate::pool::REGISTERS;
use base_lists::{Items, Memory};
use design_cell::Value;
use design_circuit::{Design, Driver, Levels, RegisterRules, StartRule, Stim};
use design_inputs::Inputs;
use std::alloc::Global;

/// How many moments there are.
const MOMENTS: u32 = 16;

/// How many rounds a moment has.
const ROUNDS: u32 = 4;

/// The stimulus of a design that a number and a number of gates stand for. Takes nine bytes for each net, and eight for
/// each value of an input that isn't that of the moment before; while it runs 16 more for each net.
pub fn made_stim(alloc: Global, design: &Design, number: u64, gates: u32) -> Result<Stim, Memory>
    requires { FitsDesign design.now }
    ensures made { IfOk result (spec.IsMadeStim design.now number gates) }
    ensures fits { IfOk result (FitsStim design.now) }
{
    let times = times_of(alloc)?;
    let rows = rows_of(alloc, design, number, gates)?;
    let inputs = Inputs::from_rows(alloc, rows.as_slice())?;
    let starts = starts_of(alloc, design)?;
    Ok(Stim {
        times: Items::from_vec(times),
        rounds: ROUNDS,
        inputs,
        rules: RegisterRules {
            start: StartRule::Cold,
            levels: Levels::Change,
        },
        starts: Items::from_vec(starts),
    })
}

/// The times of the moments.
fn times_of(alloc: Global) -> Result<Vec<u64>, Memory>
    ensures { IfOk result (λ times. times.items ≡ spec.times_of 16) }
{
    let mut times = Vec::new(alloc);
    'moments: for moment in 0..MOMENTS {
        times.push(time_of(moment))?;
    }
    Ok(times)
}

/// The time of a moment, in ticks.
fn time_of(moment: u32) -> u64
    ensures { result ≡ 10 * moment }
{
    10 * u64::from(moment)
}

/// For each moment a value for each net.
fn rows_of(
    alloc: Global,
    design: &Design,
    number: u64,
    gates: u32,
) -> Result<Vec<Items<Value>>, Memory>
    ensures many { IfOk result (λ rows. length rows.items ≡ 16) }
    ensures rows { IfOk result (λ rows. (moment : ℕ) → moment < 16
        → IsRow design.now (spec.made_value number gates moment) (slice_index_or rows.items moment [])) }
{
    let mut draws = draws_after(number, gates);
    let mut rows = Vec::new(alloc);
    'moments: for moment in 0..MOMENTS {
        let values = moment_values(alloc, &mut draws, moment)?;
        let row = row_of(alloc, design, values.as_slice())?;
        rows.push(row)?;
    }
    Ok(rows)
}

/// A value for each net: the first ones from a list, and x for any other.
fn row_of(alloc: Global, design: &Design, values: &[Value]) -> Result<Items<Value>, Memory>
    ensures { IfOk result (IsRow design.now (λ net. slice_index_or values.now net X)) }
{
    let mut row = Vec::new(alloc);
    'nets: for net in 0..design.nets.as_slice().len() {
        row.push(value_at(values, net))?;
    }
    Ok(Items::from_vec(row))
}

fn value_at(values: &[Value], net: usize) -> Value
    ensures { result ≡ slice_index_or values.now net X }
{
    if net < values.len() {
        values[net]
    } else {
        Value::X
    }
}

/// The draws that go on where those of the netlist end.
#[tactic(auto, unfolding(crate::specs::Netlist::after_netlist))]
fn draws_after(number: u64, gates: u32) -> Draws
    ensures { result.state ≡ after_netlist number gates }
{
    let mut draws = Draws { state: number };
    pass_gates(&mut draws, gates);
    pass_draws(&mut draws, REGISTERS);
    draws
}

/// Passes over the draws of so many gates.
fn pass_gates(draws: &mut Draws, gates: u32)
    ensures { draws.new.state ≡ after_gates draws.old.state gates }
{
    'gates: for _ in 0..gates {
        draws.pass();
        draws.pass();
        draws.pass();
    }
}

/// Passes over so many draws.
fn pass_draws(draws: &mut Draws, count: u32)
    ensures { draws.new.state ≡ after_draws count draws.old.state }
{
    'draws: for _ in 0..count {
        draws.pass();
    }
}

/// What each net starts with.
fn starts_of(alloc: Global, design: &Design) -> Result<Vec<Value>, Memory>
    ensures { IfOk result (λ starts. IsRow design.now (spec.made_start design.now) starts.items) }
{
    let mut starts = Vec::new(alloc);
    'nets: for net in 0..design.nets.as_slice().len() {
        starts.push(start_of(design, net))?;
    }
    Ok(starts)
}

fn start_of(design: &Design, net: usize) -> Value
    requires { net < length design.now.nets }
    ensures { result ≡ spec.made_start design.now net }
{
    match &design.nets.as_slice()[net].driver {
        Driver::Register(latching) => latching.start,
        _ => Value::X,
    }
}
