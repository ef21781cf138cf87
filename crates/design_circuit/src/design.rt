//! A design: nets of one bit each, with one driver each.

ghost use Rattle.std.specs.Prelude.{◌≡◌, ◌<◌, IfOk, length};

use crate::name::{Name, put_name};
use base_lists::{Items, Memory};
use design_cell::{Gate, Udp, Value, gate_value};
use std::alloc::Global;

/// What stands at an input of a cell.
#[derive(Clone, Copy, Debug, Default, PartialEq, Eq)]
pub enum Pin {
    /// The net of that number.
    Net(u32),
    /// A constant bit.
    Bit(bool),
    /// Nothing that ever has a value: it reads x.
    #[default]
    Dead,
}

/// The table of a cell.
#[derive(Clone, Copy, Debug, PartialEq, Eq)]
pub enum Table {
    Gate(Gate),
    /// The combinational primitive at that position of the design's.
    Udp(u32),
}

/// A register: an instance of a sequential primitive.
#[derive(Debug, Drop)]
pub struct Latching {
    /// The position of its primitive among the design's.
    pub udp: u32,
    /// In port order.
    pub pins: Items<Pin>,
    /// Bit i says whether pin i is a clock pin.
    pub clocks: u16,
    /// What it keeps at step 0.
    pub start: Value,
}

/// What drives a net.
#[derive(Debug, Drop)]
pub enum Driver {
    /// An input of the top module, which the stimulus drives.
    Input,
    /// Nothing: the net floats.
    Undriven,
    /// A constant bit.
    Constant(bool),
    /// Another net, whose value passes as it is, z as z.
    Copy(u32),
    /// A table over pins, in port order.
    Cell(Table, Items<Pin>),
    /// A sequential primitive, which keeps a value.
    Register(Latching),
}

/// A net of one bit.
#[derive(Debug, Drop)]
pub struct Net {
    pub path: Name,
    pub driver: Driver,
}

/// At most 2^20 nets, numbered from 0, and the primitives that their drivers name.
#[derive(Debug, Drop)]
pub struct Design {
    pub nets: Items<Net>,
    pub udps: Items<Udp>,
}

impl Design {
    ghost use Rattle.design_circuit.specs.Driving.{IsCell, IsRegister, cell_of, register_of};
    ghost use Rattle.design_circuit.specs.Design.{name_in};
    ghost use Rattle.design_circuit.specs.Job.{driver_in};
    ghost use Rattle.design_circuit.specs.Name.{written_name};

    /// What a cell gives for the values at its pins, in port order (IEEE 1364-2005, clauses 7 and 8).
    pub fn cell_value(&self, net: u32, pins: &[Value]) -> Value
        requires net { net < length self.now.nets }
        requires cell { IsCell self.now.udps (length pins.now) (driver_in self.now net) }
        ensures { result ≡ cell_of self.now.udps pins.now (driver_in self.now net) }
    {
        match &self.nets.as_slice()[net as usize].driver {
            Driver::Cell(Table::Gate(gate), _) => gate_value(*gate, pins),
            Driver::Cell(Table::Udp(number), _) => self.udps.as_slice()[*number as usize].look(
                pins,
            ),
            _ => unreachable!(),
        }
    }

    /// What a register keeps when the values at its pins go from the old ones to the new ones, from what it kept before
    /// (IEEE 1364-2005, clause 8).
    pub fn register_value(&self, net: u32, old: &[Value], new: &[Value], kept: Value) -> Value
        requires net { net < length self.now.nets }
        requires register { IsRegister self.now.udps (length old.now) (driver_in self.now net) }
        requires same { length new.now ≡ length old.now }
        ensures { result ≡ register_of self.now.udps old.now new.now kept (driver_in self.now net) }
    {
        match &self.nets.as_slice()[net as usize].driver {
            Driver::Register(latching) => {
                self.udps.as_slice()[latching.udp as usize].next(latching.clocks, old, new, kept)
            }
            _ => unreachable!(),
        }
    }

    /// The name of a net as it is written: the instances below the top that lead to it and its own name, joined by
    /// dots, each escaped one with its backslash and its space, and the index of a vector's bit in brackets (IEEE
    /// 1364-2005, clause 3). Takes a byte for each that is written.
    pub fn written_name(&self, alloc: Global, net: u32) -> Result<Vec<u8>, Memory>
        requires { net < length self.now.nets }
        ensures { IfOk result (λ text. text.items ≡ written_name (name_in self.now net)) }
    {
        let mut text = Vec::new(alloc);
        put_name(&mut text, &self.nets.as_slice()[net as usize].path)?;
        Ok(text)
    }
}
