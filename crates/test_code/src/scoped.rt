//! A circuit with the scope of its names: what code is read and written by.

ghost use Rattle.std.specs.Bool.{OnTrue};
ghost use Rattle.replay_code.specs.Steps.{CanWrite, HasEvents};
ghost use Rattle.cmd_job.specs.Netlist.{FitsNetlist};
ghost use Rattle.cmd_job.specs.Recorded.{FitsRecorded};

use base_lists::Memory;
use cmd_job::{Netlist, Recorded, circuit_of};
use design_circuit::{Bytes, Circuit, Event, Forces};
use replay_code::{CodeErr, read_code, write_code};
use std::alloc::Global;
use std::marker::Model;

/// A circuit, and the names in front of those of its nets. Contracts see the design.
#[derive(Drop)]
pub struct Scoped<'a> {
    circuit: Circuit<'a>,
    scope: &'a [Bytes],
}

impl<'a> Model for Scoped<'a> {
    ghost use Rattle.design_circuit.specs.Design.{FitsDesign};
    ghost use Rattle.design_circuit.specs.declared.design.Design.{Design};

    ghost Value = { Design };

    ghost view = { λ s. s.circuit.design.now };

    ghost invariant = { λ s. FitsDesign s.circuit.design.now };
}

impl<'a> Scoped<'a> {
    pub fn new(netlist: &'a Netlist, recorded: &'a Recorded, scope: &'a [Bytes]) -> Scoped<'a>
        requires netlist { FitsNetlist netlist.now }
        requires recorded { FitsRecorded netlist.now.design recorded.now }
    {
        let circuit = circuit_of(netlist, recorded);
        Scoped { circuit, scope }
    }

    /// The forces that a code text says.
    pub fn read(&self, alloc: Global, text: &[u8]) -> Result<Forces, CodeErr> {
        read_code(alloc, text, &self.circuit, self.scope)
    }

    /// The text of code for events; none where one isn't at a place.
    pub fn write(&self, alloc: Global, forces: &Forces) -> Result<Option<Vec<u8>>, Memory> {
        let circuit = self.circuit;
        if !are_places(&circuit, forces.as_slice()) {
            return Ok(None);
        }
        Ok(Some(write_code(alloc, circuit.design, circuit.stim, self.scope, forces)?))
    }

    /// The written name of a net, `no net` where there is none.
    pub fn name_of(&self, alloc: Global, net: u32) -> Result<Vec<u8>, Memory> {
        let design = self.circuit.design;
        if (net as usize) < design.nets.as_slice().len() {
            design.written_name(alloc, net)
        } else {
            Ok(Vec::from_slice(alloc, b"no net")?)
        }
    }

    /// The net of a written name.
    pub fn net_named(&self, alloc: Global, name: &str) -> Result<Option<u32>, Memory> {
        for net in 0..self.circuit.design.nets.as_slice().len() {
            let written = self.name_of(alloc, net as u32)?;
            if written.as_slice() == name.as_bytes() {
                return Ok(Some(net as u32));
            }
        }
        Ok(None)
    }
}

/// Whether each event is at a place.
fn are_places(circuit: &Circuit<'_>, events: &[Event]) -> bool
    ensures { OnTrue result (HasEvents circuit.now.design.now circuit.now.stim.now events.now) }
{
    match events {
        [] => true,
        [event, rest @ ..] => is_place(circuit, event) && are_places(circuit, rest),
    }
}

fn is_place(circuit: &Circuit<'_>, event: &Event) -> bool
    ensures { OnTrue result (CanWrite circuit.now.design.now circuit.now.stim.now event.now) }
{
    let steps = circuit.stim.times.as_slice().len() * circuit.stim.rounds as usize;
    (event.step as usize) < steps && (event.net as usize) < circuit.design.nets.as_slice().len()
}
