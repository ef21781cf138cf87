//! Gates, pullups and pulldowns (IEEE 1364-2005, clauses 7.2, 7.3 and 7.8).

ghost use Rattle.std.specs.Prelude.{◌≡◌, ◌≤◌, OnOk};
ghost use Rattle.elab_nets.specs.Outcome.{Gives};
ghost use Rattle.elab_gates.specs.Gates as spec;

use crate::terminals::{input_pins, output_net, output_nets};
use base_lists::Items;
use design_cell::Gate;
use design_circuit::{Driver, Pin, Table};
use elab_names::Here;
use elab_nets::{ElabErr, Nets};
use netlist_grammar::{Expr, GateItem, GateKind};
use std::alloc::{AllocError, Global};

/// A gate, a pullup or a pulldown: its outputs take it. Takes memory for the drivers and the implicit wires.
pub fn add_gate<'t>(here: &mut Here<'t>, item: &'t GateItem) -> Result<(), ElabErr>
    ensures { Gives (spec.gate_item item.now here.old) result (λ _. here.new) }
{
    let terminals = item.terminals.as_slice();
    match item.kind {
        GateKind::Logic(gate) => add_logic(here, gate, item.at, terminals),
        GateKind::Pullup => add_pull(here, true, item.at, terminals),
        GateKind::Pulldown => add_pull(here, false, item.at, terminals),
    }
}

/// The number of terminals comes first.
fn add_logic<'t>(
    here: &mut Here<'t>,
    gate: Gate,
    at: usize,
    terminals: &'t [Expr],
) -> Result<(), ElabErr>
    ensures { Gives (spec.logic_gate gate at terminals.now here.old) result (λ _. here.new) }
{
    if !takes(gate, terminals.len()) {
        return Err(ElabErr::PortMismatch { at });
    }
    let (outputs, inputs) = terminals.split_at(output_count(gate, terminals.len()));
    connect_gate(here, gate, outputs, inputs)?;
    Ok(())
}

/// Whether a gate may have so many terminals.
fn takes(gate: Gate, terminals: usize) -> bool
    ensures { result ≡ spec.takes gate terminals }
{
    match gate {
        Gate::Buf | Gate::Not => 2 <= terminals,
        _ => 2 <= terminals && terminals <= 11,
    }
}

/// How many of the terminals are outputs.
fn output_count(gate: Gate, terminals: usize) -> usize
    requires { 2 ≤ terminals }
    ensures count { result ≡ spec.output_count gate terminals }
    ensures within { result ≤ terminals }
{
    match gate {
        Gate::Buf | Gate::Not => terminals - 1,
        _ => 1,
    }
}

/// The outputs, the inputs, and then the outputs take the gate.
fn connect_gate<'t>(
    here: &mut Here<'t>,
    gate: Gate,
    outputs: &'t [Expr],
    inputs: &'t [Expr],
) -> Result<(), ElabErr>
    ensures { Gives (spec.connected_gate gate outputs.now inputs.now here.old) result (λ _. here.new) }
{
    let outputs = output_nets(here, outputs)?;
    let pins = input_pins(here, inputs)?;
    set_each(here.alloc, &mut here.nets, &outputs, gate, pins.as_slice())?;
    Ok(())
}

/// Gives each of these nets the gate.
fn set_each(
    alloc: Global,
    nets: &mut Nets,
    outputs: &[u32],
    gate: Gate,
    pins: &[Pin],
) -> Result<(), AllocError>
    ensures { OnOk result (nets.new ≡ spec.each_with outputs.now (spec.cell gate pins.now) nets.old) }
{
    'outputs: for net in outputs {
        let pins = Items::from_vec(pins.to_vec(alloc)?);
        nets.set(*net, Driver::Cell(Table::Gate(gate), pins));
    }
    Ok(())
}

/// A pullup or a pulldown.
fn add_pull<'t>(
    here: &mut Here<'t>,
    bit: bool,
    at: usize,
    terminals: &'t [Expr],
) -> Result<(), ElabErr>
    ensures { Gives (spec.pull bit at terminals.now here.old) result (λ _. here.new) }
{
    let [terminal] = terminals else {
        return Err(ElabErr::PortMismatch { at });
    };
    let net = output_net(here, terminal)?;
    here.nets.set(net, Driver::Constant(bit));
    Ok(())
}
