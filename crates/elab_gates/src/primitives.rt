//! Instances of primitives (IEEE 1364-2005, clause 8.6).

ghost use Rattle.std.specs.Prelude.{◌≡◌, ◌≤◌, ◌<◌, ◌+◌, [], IfOk, length};
ghost use Rattle.design_cell.specs.Refusal.{input_limit};
ghost use Rattle.design_circuit.specs.Job.{primitive_of};
ghost use Rattle.elab_nets.specs.Outcome.{Gives};
ghost use Rattle.elab_gates.specs.Primitives as spec;

use crate::terminals::{PinList, input_pin, output_net};
use base_lists::Items;
use design_cell::Udp;
use design_circuit::{Driver, Latching, Pin, Table};
use elab_names::Here;
use elab_nets::ElabErr;
use elab_prims::{Clocks, live_count};
use netlist_grammar::{Connection, Connections, Expr, InstanceItem};
use smallvec::SmallVec;

/// The most live pins of a register.
const MOST_LIVE: usize = 6;

/// An instance of the primitive at a position: its output takes it. Takes memory for the driver, for the implicit
/// wires, and for clock pins that come for the first time.
pub fn add_udp<'t>(
    here: &mut Here<'t>,
    clocks: &mut Clocks<'_>,
    number: u32,
    udp: &Udp,
    item: &'t InstanceItem,
) -> Result<(), ElabErr>
    requires within { number < length clocks.old }
    requires udp { udp.now ≡ primitive_of clocks.old number }
    requires few { udp.now.inputs ≤ input_limit udp.now.sequential }

    ensures added { Gives (spec.udp_item number udp.now item.now here.old) result (λ _. here.new) }
    ensures same { clocks.new ≡ clocks.old }
{
    let at = item.definition.at;
    let Connections::Positional(connections) = &item.connections else {
        return Err(ElabErr::PortMismatch { at });
    };
    let connections = connections.as_slice();
    if !are_there(connections) || connections.len() != udp.inputs() + 1 {
        return Err(ElabErr::PortMismatch { at });
    }
    let (net, pins) = connect_terminals(here, at, connections)?;
    here.nets.set(net, udp_driver(clocks, number, udp, at, pins.into_vec()?)?);
    Ok(())
}

fn are_there(connections: &[Connection]) -> bool
    ensures { result ≡ spec.are_there connections.now }
{
    connections
        .iter()
        .all(|connection| connection.value.is_some())
}

/// The net of the output terminal, and the pins of the input terminals.
fn connect_terminals<'t>(
    here: &mut Here<'t>,
    at: usize,
    connections: &'t [Connection],
) -> Result<(u32, PinList), ElabErr>
    ensures terminals { Gives (spec.connected_terminals at connections.now here.old) result
        (λ t. ((t.0, t.1.items), here.new)) }
    ensures count { IfOk result (λ t. length t.1.items + 1 ≡ length connections.now) }
{
    let [output, inputs @ ..] = connections else {
        return Err(ElabErr::PortMismatch { at });
    };
    let net = output_net(here, terminal_of(output, at)?)?;
    let pins = connect_pins(here, at, inputs)?;
    Ok((net, pins))
}

/// The pins of the input terminals.
fn connect_pins<'t>(
    here: &mut Here<'t>,
    at: usize,
    inputs: &'t [Connection],
) -> Result<PinList, ElabErr>
    ensures pins { Gives (spec.connected_pins at [] inputs.now here.old) result (λ pins. (pins.items, here.new)) }
    ensures count { IfOk result (λ pins. length pins.items ≡ length inputs.now) }
{
    let mut pins = SmallVec::new(here.alloc);
    'inputs: for input in inputs {
        pins.push(input_pin(here, terminal_of(input, at)?)?)?;
    }
    Ok(pins)
}

/// What is connected.
fn terminal_of(connection: &Connection, at: usize) -> Result<&Expr, ElabErr>
    ensures { Gives (spec.terminal_of at connection.now) result (λ e. e.now) }
{
    match &connection.value {
        Some(expr) => Ok(expr),
        None => Err(ElabErr::PortMismatch { at }),
    }
}

/// What an instance drives its output by.
fn udp_driver(
    clocks: &mut Clocks<'_>,
    number: u32,
    udp: &Udp,
    at: usize,
    pins: Vec<Pin>,
) -> Result<Driver, ElabErr>
    requires within { number < length clocks.old }
    requires udp { udp.now ≡ primitive_of clocks.old number }
    requires few { udp.now.inputs ≤ input_limit udp.now.sequential }
    requires inputs { length pins.items ≡ udp.now.inputs }
    ensures driver { Gives (spec.udp_driver number udp.now at pins.items) result (λ driver. driver) }
    ensures same { clocks.new ≡ clocks.old }
{
    if !udp.sequential() {
        return Ok(Driver::Cell(Table::Udp(number), Items::from_vec(pins)));
    }
    if live_count(&pins) > MOST_LIVE {
        return Err(ElabErr::TooManyLive { at });
    }
    let clocks = clocks.clocks(number, &pins)?;
    Ok(Driver::Register(Latching {
        udp: number,
        pins: Items::from_vec(pins),
        clocks,
        start: udp.start(),
    }))
}
