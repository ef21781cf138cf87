//! Who reads each net: for each a chain of links through one flat table.

ghost use Rattle.std.specs.Prelude.{◌<◌, [], ◌∷◌, IfOk, length};
ghost use Rattle.std.specs.List.{AllByRecursion};
ghost use Rattle.design_circuit.specs.Order.{arguments_of_driver, net_pins};
ghost use Rattle.design_circuit.specs.Job.{driver_in};
ghost use Rattle.design_circuit.specs.Design.{FitsDesign};
ghost use Rattle.design_order.specs.Progress.{open_pin};
ghost use Rattle.design_order.specs.Readers.{IsTableOf, AreReaders, AddsTo};

use base_lists::Memory;
use design_circuit::{Design, Driver, Pin};
use std::alloc::Global;

/// A reader of a net, and the next link of its chain.
#[derive(Clone, Copy)]
pub struct Link {
    pub reader: u32,
    pub next: Option<usize>,
}

/// For each net the first link of its chain, and the links.
#[derive(Drop)]
pub struct Readers {
    pub heads: Vec<Option<usize>>,
    pub links: Vec<Link>,
}

/// The readers of a design's nets. Takes 16 bytes for each net, and up to 48 for each argument.
pub fn readers_of(alloc: Global, design: &Design) -> Result<Readers, Memory>
    requires { FitsDesign design.now }
    ensures table { IfOk result (λ readers. IsTableOf (length design.now.nets) readers) }
    ensures readers { IfOk result (λ readers. AreReaders (driver_in design.now) (length design.now.nets) readers) }
{
    let nets = design.nets.as_slice();
    let mut readers = Readers {
        heads: vec![in alloc; None; nets.len()]?,
        links: Vec::new(alloc),
    };
    for (net, item) in nets.iter().enumerate() {
        readers.add_arguments(&item.driver, net as u32)?;
    }
    Ok(readers)
}

impl Readers {
    /// A net reads the arguments of its driver.
    fn add_arguments(&mut self, driver: &Driver, net: u32) -> Result<(), Memory>
        requires table { IsTableOf (length self.old.heads.items) self.old }
        requires net { net < length self.old.heads.items }
        requires arguments { AllByRecursion (λ a. a < length self.old.heads.items) (arguments_of_driver driver.now) }
        ensures { IfOk result (λ _. AddsTo self.old self.new (arguments_of_driver driver.now) net) }
    {
        match driver {
            Driver::Input => Ok(()),
            Driver::Undriven => Ok(()),
            Driver::Constant(_) => Ok(()),
            Driver::Copy(argument) => self.add(*argument, net),
            Driver::Cell(_, pins) => self.add_pins(pins.as_slice(), net),
            Driver::Register(_) => Ok(()),
        }
    }

    fn add_pins(&mut self, pins: &[Pin], net: u32) -> Result<(), Memory>
        requires table { IsTableOf (length self.old.heads.items) self.old }
        requires net { net < length self.old.heads.items }
        requires arguments { AllByRecursion (λ a. a < length self.old.heads.items) (net_pins pins.now) }
        ensures { IfOk result (λ _. AddsTo self.old self.new (net_pins pins.now) net) }
    {
        for pin in pins {
            self.add_pin(*pin, net)?;
        }
        Ok(())
    }

    fn add_pin(&mut self, pin: Pin, net: u32) -> Result<(), Memory>
        requires table { IsTableOf (length self.old.heads.items) self.old }
        requires net { net < length self.old.heads.items }
        requires arguments { AllByRecursion (λ a. a < length self.old.heads.items) (open_pin pin) }
        ensures { IfOk result (λ _. AddsTo self.old self.new (open_pin pin) net) }
    {
        match pin {
            Pin::Net(argument) => self.add(argument, net),
            Pin::Bit(_) => Ok(()),
            Pin::Dead => Ok(()),
        }
    }

    /// A link more, at the head of its chain.
    fn add(&mut self, argument: u32, net: u32) -> Result<(), Memory>
        requires table { IsTableOf (length self.old.heads.items) self.old }
        requires net { net < length self.old.heads.items }
        requires argument { argument < length self.old.heads.items }
        ensures { IfOk result (λ _. AddsTo self.old self.new (argument ∷ []) net) }
    {
        let next = self.heads[argument as usize];
        self.heads[argument as usize] = Some(self.links.len());
        self.links.push(Link { reader: net, next })?;
        Ok(())
    }
}
