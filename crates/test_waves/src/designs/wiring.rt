//! A gate whose net stands behind the net that it reads.

ghost use Rattle.std.specs.Prelude.{◌≡◌, [], ◌∷◌, IfOk, map};
ghost use Rattle.design_circuit.specs.declared.design.Driver.TheVariants as drivers;
ghost use Rattle.design_circuit.specs.declared.design.Net.{Net as AnyNet};
ghost use Rattle.design_circuit.specs.declared.design.Pin.TheVariants as pin;
ghost use Rattle.design_circuit.specs.declared.design.Table.TheVariants as table;
ghost use Rattle.design_cell.specs.declared.gate.Gate.TheVariants as gate;

use crate::asserted::{same, same_items};
use crate::designs::nets::{net, swapped};
use base_lists::Items;
use design_cell::Gate;
use design_circuit::{Design, Driver, Order, Pin, Table};
use design_wiring::{Kind, Wiring};
use std::alloc::{AllocError, Global};
use std::process::Abort;
use std::test::Fail;

/// An `and` of the second net, which nothing drives, and of a dead pin.
fn design(alloc: Global) -> Result<Design, AllocError>
    ensures { IfOk result (λ design. map (λ (n : AnyNet). n.driver) design.nets ≡
        drivers.Cell (table.Gate gate.And) (pin.Net 1 ∷ pin.Dead ∷ []) ∷ drivers.Undriven ∷ []) }
{
    let pins = [Pin::Net(1), Pin::Dead].to_vec(alloc)?;
    let mut nets = Vec::new(alloc);
    nets.push(net(
        alloc,
        Driver::Cell(Table::Gate(Gate::And), Items::from_vec(pins)),
    ))?;
    nets.push(net(alloc, Driver::Undriven))?;
    Ok(Design {
        nets: Items::from_vec(nets),
        udps: Items::from_vec(Vec::new(alloc)),
    })
}

fn check_wiring(rt: &impl Abort, alloc: Global, design: &Design, order: &Order) -> Result<(), Fail>
    requires design { map (λ (n : AnyNet). n.driver) design.now.nets ≡
        drivers.Cell (table.Gate gate.And) (pin.Net 1 ∷ pin.Dead ∷ []) ∷ drivers.Undriven ∷ [] }
    requires order { order.now ≡ 1 ∷ 0 ∷ [] }
{
    let wiring = Wiring::of(alloc, design, order)?;
    same(rt, "the input", wiring.kind(0), Kind::Undriven);
    same(rt, "the gate", wiring.kind(1), Kind::Gate(Gate::And));
    same(rt, "pins of the input", wiring.pins(0).len(), 0);
    same_items(
        rt,
        "pins of the gate",
        wiring.pins(1),
        &[Pin::Net(0), Pin::Dead],
    );
    Ok(())
}

#[test]
fn a_pin_is_named_by_its_position(rt: HostRuntime) -> Result<(), Fail> {
    let design = design(rt.alloc())?;
    let order = swapped(rt.alloc())?;
    check_wiring(&rt, rt.alloc(), &design, &order)
}
