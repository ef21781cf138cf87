//! The values of a moment: a clock, and inputs that are drawn.

ghost use Rattle.std.specs.Prelude.{◌≡◌, ◌==◌, ◌++◌, IfOk, OnOk};
ghost use Rattle.design_cell.specs.Value.{bit_value};
ghost use Rattle.cmd_make.specs.Stimulus as spec;

use crate::draws::Draws;
use crate::pool::INPUTS;
use base_lists::Memory;
use design_cell::Value;
use std::alloc::Global;

/// The clock and the inputs of a moment. Takes a byte for each.
#[tactic(auto, unfolding(crate::specs::Stimulus::moment_values))]
pub fn moment_values(alloc: Global, draws: &mut Draws, moment: u32) -> Result<Vec<Value>, Memory>
    ensures values { IfOk result (λ values. values.items ≡ spec.moment_values draws.old.state moment) }
    ensures after { OnOk result (draws.new.state ≡ spec.after_inputs draws.old.state 8) }
{
    let mut values = Vec::new(alloc);
    values.push(value_of(moment % 2))?;
    push_inputs(&mut values, draws)?;
    Ok(values)
}

/// Draws the inputs of a moment, and puts them behind others.
fn push_inputs(values: &mut Vec<Value>, draws: &mut Draws) -> Result<(), Memory>
    ensures values { OnOk result (values.new.items ≡ values.old.items ++ spec.drawn_inputs draws.old.state 8) }
    ensures after { OnOk result (draws.new.state ≡ spec.after_inputs draws.old.state 8) }
{
    'inputs: for _ in 0..INPUTS {
        let value = draw_input(draws);
        values.push(value)?;
    }
    Ok(())
}

/// Draws an input.
#[tactic(auto, unfolding(crate::specs::Stimulus::drawn_input, crate::specs::Stimulus::after_input))]
fn draw_input(draws: &mut Draws) -> Value
    ensures value { result ≡ spec.drawn_input draws.old.state }
    ensures after { draws.new.state ≡ spec.after_input draws.old.state }
{
    if draws.draw(8) == 0 {
        return Value::X;
    }
    value_of(draws.draw(2) as u32)
}

/// 0 or 1 as a value.
fn value_of(bit: u32) -> Value
    ensures { result ≡ bit_value (bit == 1) }
{
    if bit == 1 { Value::One } else { Value::Zero }
}
