//! For each net the positions whose drivers read it.

ghost use Rattle.std.specs.Prelude.{◌<◌, [], ◌∷◌, IfOk, OnOk};
ghost use Rattle.design_circuit.specs.Circuit.{job_in};
ghost use Rattle.design_circuit.specs.Order.{arguments_of_driver, net_pins};
ghost use Rattle.replay_fans.specs.Nets.{looked_at};
ghost use Rattle.replay_fans.specs.Readings.{AppendsReadings, AreFans, AreReaders, PushesArguments, PushesLookedAt};

use base_lists::Memory;
use design_circuit::{Circuit, Driver, Pin, driver_at, width_of};
use replay_due::{Readers, Reading};
use std::alloc::Global;

/// The copies and cells that read each net, and the registers that look back at it.
#[derive(Debug, Drop)]
pub struct Fans {
    pub cells: Readers,
    pub registers: Readers,
}

impl Fans {
    /// Those of a circuit. Takes 16 bytes for each net and 4 for each pin, and on the way 16 more for each pin.
    pub fn of(alloc: Global, circuit: &Circuit<'_>) -> Result<Fans, Memory>
        ensures { IfOk result (AreFans (job_in circuit.now)) }
    {
        let cells = cell_readers(alloc, circuit)?;
        let registers = register_readers(alloc, circuit)?;
        Ok(Fans { cells, registers })
    }
}

fn cell_readers(alloc: Global, circuit: &Circuit<'_>) -> Result<Readers, Memory>
    ensures { IfOk result (AreReaders (job_in circuit.now) arguments_of_driver) }
{
    let nets = width_of(circuit);
    let mut readings = Vec::new(alloc);
    'positions: for position in 0..nets {
        push_arguments(circuit, position as u32, &mut readings)?;
    }
    Ok(Readers::new(alloc, nets, readings.as_slice())?)
}

/// The registers that look back at each net of a circuit.
pub fn register_readers(alloc: Global, circuit: &Circuit<'_>) -> Result<Readers, Memory>
    ensures { IfOk result (AreReaders (job_in circuit.now) looked_at) }
{
    let nets = width_of(circuit);
    let mut readings = Vec::new(alloc);
    'positions: for position in 0..nets {
        push_looked_at(circuit, position as u32, &mut readings)?;
    }
    Ok(Readers::new(alloc, nets, readings.as_slice())?)
}

fn push_arguments(
    circuit: &Circuit<'_>,
    position: u32,
    readings: &mut Vec<Reading>,
) -> Result<(), Memory>
    requires position { position < (job_in circuit.now).width }
    ensures { OnOk result (PushesArguments circuit.now position readings.old.items readings.new.items) }
{
    let net = circuit.order.net(position);
    match driver_at(circuit, net as usize) {
        Driver::Copy(net) => push_net(*net, position, readings),
        Driver::Cell(_, pins) => push_pins(pins.as_slice(), position, readings),
        _ => Ok(()),
    }
}

fn push_looked_at(
    circuit: &Circuit<'_>,
    position: u32,
    readings: &mut Vec<Reading>,
) -> Result<(), Memory>
    requires position { position < (job_in circuit.now).width }
    ensures { OnOk result (PushesLookedAt circuit.now position readings.old.items readings.new.items) }
{
    let net = circuit.order.net(position);
    match driver_at(circuit, net as usize) {
        Driver::Register(latching) => push_pins(latching.pins.as_slice(), position, readings),
        _ => Ok(()),
    }
}

fn push_pins(pins: &[Pin], position: u32, readings: &mut Vec<Reading>) -> Result<(), Memory>
    ensures { OnOk result (AppendsReadings readings.old.items readings.new.items position (net_pins pins.now)) }
{
    'pins: for pin in pins {
        push_pin(*pin, position, readings)?;
    }
    Ok(())
}

fn push_pin(pin: Pin, position: u32, readings: &mut Vec<Reading>) -> Result<(), Memory>
    ensures { OnOk result (AppendsReadings readings.old.items readings.new.items position (net_pins (pin ∷ []))) }
{
    match pin {
        Pin::Net(net) => push_net(net, position, readings),
        _ => Ok(()),
    }
}

/// A reading more.
pub fn push_net(net: u32, position: u32, readings: &mut Vec<Reading>) -> Result<(), Memory>
    ensures { OnOk result (AppendsReadings readings.old.items readings.new.items position (net ∷ [])) }
{
    readings.push(Reading { net, position })?;
    Ok(())
}
