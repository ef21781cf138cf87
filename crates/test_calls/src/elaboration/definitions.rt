//! Definitions by name, and the table and the clock pins of a flip-flop.

ghost use Rattle.std.specs.Prelude.{◌≡◌, length, true};
ghost use Rattle.design_circuit.specs.Job.{primitive_of};

use crate::cells::tables::dff;
use crate::elaboration::items::word;
use base_lists::Items;
use design_cell::Udp;
use design_circuit::Pin;
use elab_prims::{Clocks, Definition, Definitions, build_primitives};
use netlist_grammar::{PrimDeclare, PrimKind, Primitive, Source, Word};
use std::alloc::{AllocError, Global};
use std::process::Abort;
use std::test::Fail;

/// Ports by their names.
fn ports(alloc: Global, names: &[&[u8]]) -> Result<Items<Word>, AllocError> {
    let mut ports = Vec::new(alloc);
    for name in names {
        ports.push(word(alloc, name)?)?;
    }
    Ok(Items::from_vec(ports))
}

/// Declarations of ports.
fn declarations(
    alloc: Global,
    table: &[(PrimKind, &[u8])],
) -> Result<Items<PrimDeclare>, AllocError> {
    let mut declarations = Vec::new(alloc);
    for (what, name) in table {
        let name = word(alloc, name)?;
        declarations.push(PrimDeclare { what: *what, name })?;
    }
    Ok(Items::from_vec(declarations))
}

/// A flip-flop: its output, its data and its clock.
fn flip_flop(alloc: Global) -> Result<Primitive, AllocError> {
    let names: [&[u8]; 3] = [b"q", b"d", b"ck"];
    let table: [(PrimKind, &[u8]); 4] = [
        (PrimKind::Output, b"q"),
        (PrimKind::Reg, b"q"),
        (PrimKind::Input, b"d"),
        (PrimKind::Input, b"ck"),
    ];
    Ok(Primitive {
        name: word(alloc, b"dff")?,
        ports: ports(alloc, &names)?,
        declarations: declarations(alloc, &table)?,
        rows: Items::from_vec(dff(alloc)?),
    })
}

/// A flip-flop alone.
fn flip_flops(alloc: Global) -> Result<Items<Primitive>, AllocError> {
    let mut primitives = Vec::new(alloc);
    primitives.push(flip_flop(alloc)?)?;
    Ok(Items::from_vec(primitives))
}

fn check_found(rt: &impl Abort, alloc: Global, source: &Source) {
    let Ok(definitions) = Definitions::new(alloc, source) else {
        panic!(rt; "refused");
    };
    assert_eq!(rt; definitions.find(b"dff"), Some(Definition::Primitive(0)));
    assert_eq!(rt; definitions.find(b"q"), None);
}

#[test]
fn definitions_are_found(rt: HostRuntime) -> Result<(), Fail> {
    let alloc = rt.alloc();
    let source = Source {
        modules: Items::from_vec(Vec::new(alloc)),
        primitives: flip_flops(alloc)?,
    };
    check_found(&rt, alloc, &source);
    Ok(())
}

/// The clock is the clock pin, where it is not dead.
fn check_pins(rt: &impl Abort, clocks: &mut Clocks<'_>) -> Result<(), Fail>
    requires one { length clocks.old ≡ 1 }
    requires kind { (primitive_of clocks.old 0).sequential ≡ true }
    requires inputs { (primitive_of clocks.old 0).inputs ≡ 2 }
{
    assert_eq!(rt; clocks.clocks(0, &[Pin::Net(1), Pin::Net(2)])?, 0b10);
    assert_eq!(rt; clocks.clocks(0, &[Pin::Net(1), Pin::Dead])?, 0);
    Ok(())
}

fn check_clocks(rt: &impl Abort, alloc: Global, udps: &[Udp]) -> Result<(), Fail> {
    assert_eq!(rt; udps.len(), 1);
    assert!(rt; udps[0].sequential());
    assert_eq!(rt; udps[0].inputs(), 2);
    let mut clocks = Clocks::new(alloc, udps);
    check_pins(rt, &mut clocks)
}

#[test]
fn flip_flop_has_its_clock(rt: HostRuntime) -> Result<(), Fail> {
    let alloc = rt.alloc();
    let primitives = flip_flops(alloc)?;
    let Ok(udps) = build_primitives(alloc, primitives.as_slice()) else {
        panic!(rt; "refused");
    };
    check_clocks(&rt, alloc, &udps)
}
