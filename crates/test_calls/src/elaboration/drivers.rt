//! What gates, assignments and instances of primitives drive.

use crate::elaboration::items::{net_a, top, word, zero};
use base_lists::Items;
use design_cell::{Udp, Value};
use elab_gates::{add_assign, add_gate, add_udp, add_value};
use elab_names::Here;
use elab_prims::Clocks;
use netlist_grammar::{
    Connection, Connections, Declare, GateItem, GateKind, InstanceItem, Item, NetKind,
};
use std::alloc::{AllocError, Global};
use std::process::Abort;
use std::test::Fail;

/// Adds an instance of a primitive of one input.
fn add_instance<'t>(here: &mut Here<'t>, item: &'t InstanceItem) -> Result<(), Fail> {
    let mut udps = Vec::new(here.alloc);
    udps.push(Udp::build(here.alloc, false, 1, &[], Value::X)?)?;
    let mut clocks = Clocks::new(here.alloc, &udps);
    add_udp(here, &mut clocks, 0, &udps[0], item)?;
    Ok(())
}

/// The first net has a driver once the item is added.
fn check_added<'t>(rt: &impl Abort, here: &mut Here<'t>, item: &'t Item) -> Result<(), Fail> {
    match item {
        Item::Declare(declare) => add_value(here, declare)?,
        Item::Gate(gate) => add_gate(here, gate)?,
        Item::Instance(instance) => add_instance(here, instance)?,
        Item::Assign(left, right) => add_assign(here, left, right)?,
    }
    assert!(rt; here.nets.has_driver(0));
    Ok(())
}

/// The same where there is no other item.
fn check_drives(rt: &impl Abort, alloc: Global, item: &Item) -> Result<(), Fail> {
    let mut here = top(alloc);
    check_added(rt, &mut here, item)
}

#[test]
fn pullup_drives(rt: HostRuntime) -> Result<(), Fail> {
    let alloc = rt.alloc();
    let item = Item::Gate(GateItem {
        kind: GateKind::Pullup,
        at: 0,
        terminals: Items::from_vec(vec![in alloc; net_a(alloc)?]?),
    });
    check_drives(&rt, alloc, &item)
}

#[test]
fn assignment_drives(rt: HostRuntime) -> Result<(), Fail> {
    let alloc = rt.alloc();
    let item = Item::Assign(net_a(alloc)?, zero(alloc)?);
    check_drives(&rt, alloc, &item)
}

#[test]
fn value_drives(rt: HostRuntime) -> Result<(), Fail> {
    let alloc = rt.alloc();
    let item = Item::Declare(Declare {
        what: NetKind::Wire,
        range: None,
        name: word(alloc, b"a")?,
        value: Some(zero(alloc)?),
    });
    check_drives(&rt, alloc, &item)
}

/// An instance of `a` whose output is the net `a` and whose input is 0.
fn instance(alloc: Global) -> Result<InstanceItem, AllocError> {
    let connections = vec![in alloc;
        Connection {
            at: 7,
            value: Some(net_a(alloc)?)
        },
        Connection {
            at: 9,
            value: Some(zero(alloc)?)
        },
    ]?;
    Ok(InstanceItem {
        definition: word(alloc, b"a")?,
        name: None,
        connections: Connections::Positional(Items::from_vec(connections)),
    })
}

#[test]
fn primitive_drives(rt: HostRuntime) -> Result<(), Fail> {
    let alloc = rt.alloc();
    let item = Item::Instance(instance(alloc)?);
    check_drives(&rt, alloc, &item)
}
