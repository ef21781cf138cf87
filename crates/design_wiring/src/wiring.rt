//! What stands at each position of the order, and what it reads.

ghost use Rattle.std.specs.Prelude.{◌≡◌, ◌<◌, ◌≤◌, ◌^◌, IfOk, length};
ghost use Rattle.std.specs.List.{AllByRecursion};
ghost use Rattle.design_circuit.specs.Job.{driver_in};
ghost use Rattle.design_wiring.specs.Wired as spec;

use crate::pins::add_pins_of;
use base_lists::Memory;
use design_cell::Gate;
use design_circuit::{Design, Driver, Order, Pin, Table};
use std::alloc::Global;
use std::marker::Model;

/// What drives a net, without the pins that it reads.
#[derive(Clone, Copy, Debug, PartialEq, Eq)]
pub enum Kind {
    /// An input of the top module.
    Input,
    /// Nothing: the net floats.
    Undriven,
    /// A constant bit.
    Constant(bool),
    /// Another net, its one pin.
    Copy,
    Gate(Gate),
    /// The combinational primitive at that position of the design's.
    Udp(u32),
    /// A sequential primitive.
    Register,
}

/// What stands at a position, and where its pins begin and end in the table of pins.
#[derive(Clone, Copy, Debug)]
pub struct Head {
    pub kind: Kind,
    pub start: u32,
    pub end: u32,
}

/// For each position of an order the kind of driver and the pins that it reads, each net named by its position.
/// Contracts see the list of these.
#[derive(Debug, Drop)]
pub struct Wiring {
    heads: Vec<Head>,
    pins: Vec<Pin>,
}

impl Model for Wiring {
    ghost use Rattle.std.specs.Prelude.{List};
    ghost use Rattle.design_wiring.specs.Wired.{Wire};
    ghost use Rattle.design_wiring.specs.Flat.{AreHeadsWithin, wires_in};

    ghost Value = { List Wire };

    ghost view = { λ wiring. wires_in wiring.pins.items wiring.heads.items };

    ghost invariant = { λ wiring. AreHeadsWithin wiring.pins.items wiring.heads.items };
}

impl Wiring {
    /// The wiring of a design in an order. Takes 16 bytes for each net, and 8 to 24 for each pin.
    pub fn of(alloc: Global, design: &Design, order: &Order) -> Result<Wiring, Memory>
        requires nets { AllByRecursion (spec.IsWirable design.now order.now) order.now }
        requires all { length order.now ≡ length design.now.nets }
        requires few { length order.now ≤ 2 ^ 20 }
        ensures { IfOk result (λ wiring. wiring ≡ spec.wired design.now order.now) }
    {
        let width = design.nets.as_slice().len();
        let mut heads = Vec::with_capacity(alloc, width)?;
        let mut pins = Vec::new(alloc);
        'positions: for position in 0..width {
            let driver = driver_of(design, order.net(position as u32));
            let start = pins.len() as u32;
            add_pins_of(&mut pins, order, driver)?;
            heads.push(Head {
                kind: kind_of(driver),
                start,
                end: pins.len() as u32,
            })?;
        }
        Ok(Wiring { heads, pins })
    }

    /// What stands at a position.
    pub fn kind(&self, position: usize) -> Kind
        requires { position < length self.now }
        ensures { result ≡ (spec.wire_at self.now position).kind }
    {
        self.heads[position].kind
    }

    /// The pins that it reads, in port order; a copy has one.
    pub fn pins(&self, position: usize) -> &[Pin]
        requires { position < length self.now }
        ensures { result.now ≡ (spec.wire_at self.now position).pins }
    {
        let head = self.heads[position];
        &self.pins[head.start as usize..head.end as usize]
    }
}

/// The driver of a net.
fn driver_of(design: &Design, net: u32) -> &Driver
    requires { net < length design.now.nets }
    ensures { result.now ≡ driver_in design.now net }
{
    &design.nets.as_slice()[net as usize].driver
}

/// What a driver is, without its pins.
fn kind_of(driver: &Driver) -> Kind
    ensures { result ≡ spec.kind_of driver.now }
{
    match driver {
        Driver::Input => Kind::Input,
        Driver::Undriven => Kind::Undriven,
        Driver::Constant(bit) => Kind::Constant(*bit),
        Driver::Copy(_) => Kind::Copy,
        Driver::Cell(table, _) => kind_of_table(*table),
        Driver::Register(_) => Kind::Register,
    }
}

fn kind_of_table(table: Table) -> Kind
    ensures { result ≡ spec.kind_of_table table }
{
    match table {
        Table::Gate(gate) => Kind::Gate(gate),
        Table::Udp(number) => Kind::Udp(number),
    }
}
