//! The registers of a design by their written names: a map that is built once, in time linear in the names.

ghost use Rattle.std.specs.Prelude.{◌≡◌, ◌<◌, OnOk, length};
ghost use Rattle.law_waveforms.specs.Starts.{is_register};
ghost use Rattle.report_fix.specs.Registers as spec;

use base_lists::Memory;
use design_circuit::{Design, Driver};
use indexmap::IndexMap;
use std::alloc::{AllocError, Global};
use std::marker::Model;

/// The registers of a design, to be found by their written names. Takes a written name and 4 bytes for each register.
#[derive(Drop)]
pub struct Registers<'a> {
    design: &'a Design,
    nets: IndexMap<Vec<u8>, u32>,
}

impl<'a> Model for Registers<'a> {
    ghost use Rattle.design_circuit.specs.declared.design.Design.{Design};
    ghost use Rattle.report_fix.specs.Registers.{ListsRegisters};

    ghost Value = { Design };

    ghost view = { λ registers. registers.design.now };

    ghost invariant = { λ registers. ListsRegisters registers.nets.entries registers.design.now.nets };
}

impl<'a> Registers<'a> {
    ghost use Rattle.std.specs.Prelude.{◌≡◌, ◌<◌, ◌≤◌, ◌^◌, IfOk, IfSome, length};
    ghost use Rattle.report_fix.specs.Registers.{register_named};

    /// The registers of a design.
    pub fn new(alloc: Global, design: &'a Design) -> Result<Registers<'a>, Memory>
        requires { length design.now.nets ≤ 2 ^ 20 }
        ensures { IfOk result (λ registers. registers ≡ design.now) }
    {
        let mut nets = IndexMap::new(alloc);
        'nets: for number in 0..design.nets.as_slice().len() as u32 {
            add_net(alloc, &mut nets, design, number)?;
        }
        Ok(Registers { design, nets })
    }

    /// The first register with this written name.
    pub fn find(&self, name: &[u8]) -> Option<u32>
        ensures named { result ≡ register_named self.now.nets name.now }
        ensures within { IfSome result (λ net. net < length self.now.nets) }
    {
        self.nets.get(name).copied()
    }
}

/// Notes a net, the next of a design, where it is a register and none before it has its name.
fn add_net(
    alloc: Global,
    nets: &mut IndexMap<Vec<u8>, u32>,
    design: &Design,
    number: u32,
) -> Result<(), Memory>
    requires { number < length design.now.nets }
    ensures { OnOk result (spec.AddsNet nets.old.entries nets.new.entries design.now number) }
{
    if is_register(&design.nets.as_slice()[number as usize].driver) {
        let name = design.written_name(alloc, number)?;
        add_name(nets, name, number)?;
    }
    Ok(())
}

/// Notes a name, where it isn't noted.
fn add_name(nets: &mut IndexMap<Vec<u8>, u32>, name: Vec<u8>, net: u32) -> Result<(), AllocError>
    ensures { OnOk result (spec.AddsName nets.old.entries nets.new.entries name.items net) }
{
    if nets.get(name.as_slice()).is_none() {
        nets.insert(name, net)?;
    }
    Ok(())
}

fn is_register(driver: &Driver) -> bool
    ensures { result ≡ is_register driver.now }
{
    matches!(driver, Driver::Register(_))
}
