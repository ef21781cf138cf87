//! The terminals of gates and of instances of primitives.

ghost use Rattle.std.specs.Prelude.{◌≡◌, []};
ghost use Rattle.elab_nets.specs.Outcome.{Gives};
ghost use Rattle.elab_gates.specs.Terminals as spec;

use design_circuit::{Driver, Pin};
use elab_bits::{Lane, Role, bits_of};
use elab_names::Here;
use elab_nets::ElabErr;
use netlist_grammar::Expr;
use smallvec::SmallVec;

/// Pins while they are collected, up to three in the place itself.
pub type PinList = SmallVec<Pin, 3>;

/// The nets that output terminals are, which are taken from now on.
pub fn output_nets<'t>(here: &mut Here<'t>, outputs: &'t [Expr]) -> Result<Vec<u32>, ElabErr>
    ensures { Gives (spec.output_nets [] outputs.now here.old) result (λ numbers. (numbers.items, here.new)) }
{
    let mut numbers = Vec::new(here.alloc);
    'outputs: for output in outputs {
        numbers.push(output_net(here, output)?)?;
    }
    Ok(numbers)
}

/// The net that an output terminal is, which is taken from now on.
pub fn output_net<'t>(here: &mut Here<'t>, expr: &'t Expr) -> Result<u32, ElabErr>
    ensures { Gives (spec.one_net expr.now here.old) result (λ net. (net, here.new)) }
{
    let bits = bits_of(here, Role::Terminal, expr)?;
    let Some((at, net)) = single_net(bits.single()) else {
        return Err(ElabErr::PortMismatch { at: expr.at });
    };
    here.nets.drive(at, net, Driver::Undriven)?;
    Ok(net)
}

fn single_net(lane: Option<Lane>) -> Option<(usize, u32)>
    ensures { result ≡ spec.single_net lane }
{
    let lane = lane?;
    match lane.pin {
        Pin::Net(net) => Some((lane.at, net)),
        Pin::Bit(_) | Pin::Dead => None,
    }
}

/// The pins that input terminals are.
pub fn input_pins<'t>(here: &mut Here<'t>, inputs: &'t [Expr]) -> Result<PinList, ElabErr>
    ensures { Gives (spec.input_pins [] inputs.now here.old) result (λ pins. (pins.items, here.new)) }
{
    let mut pins = SmallVec::new(here.alloc);
    'inputs: for input in inputs {
        pins.push(input_pin(here, input)?)?;
    }
    Ok(pins)
}

/// The pin that an input terminal is.
pub fn input_pin<'t>(here: &mut Here<'t>, expr: &'t Expr) -> Result<Pin, ElabErr>
    ensures { Gives (spec.one_pin expr.now here.old) result (λ pin. (pin, here.new)) }
{
    let bits = bits_of(here, Role::Terminal, expr)?;
    let Some(pin) = single_pin(bits.single()) else {
        return Err(ElabErr::Width { at: expr.at });
    };
    Ok(pin)
}

fn single_pin(lane: Option<Lane>) -> Option<Pin>
    ensures { result ≡ spec.single_pin lane }
{
    let lane = lane?;
    Some(lane.pin)
}
