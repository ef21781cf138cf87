//! A history of two nets as it is written.

ghost use Rattle.std.specs.Prelude.{◌≡◌, IfOk, length};

use crate::asserted::same;
use crate::designs::nets::{net, two_moments};
use base_lists::Items;
use design_cell::Value;
use design_circuit::{Design, Driver, HistoryWriter, Place, Stim};
use std::alloc::{AllocError, Global};
use std::process::Abort;
use std::test::Fail;

fn two_nets(alloc: Global) -> Result<Design, AllocError>
    ensures { IfOk result (λ design. length design.nets ≡ 2) }
{
    let mut nets = Vec::new(alloc);
    nets.push(net(alloc, Driver::Undriven))?;
    nets.push(net(alloc, Driver::Undriven))?;
    Ok(Design {
        nets: Items::from_vec(nets),
        udps: Items::from_vec(Vec::new(alloc)),
    })
}

/// A place of the step under way has what was set last, and another keeps what it has.
fn check_set(rt: &impl Abort, writer: &mut HistoryWriter) -> Result<(), Fail>
    requires step { writer.old.step ≡ 1 }
    requires nets { writer.old.history.nets ≡ 2 }
    requires places { length writer.old.history.places ≡ 8 }
{
    let set = Place { step: 1, net: 0 };
    let other = Place { step: 3, net: 1 };
    same(rt, "shown at first", writer.shown(set), Value::X);
    same(rt, "kept at first", writer.kept(other), Value::X);
    for (shown, kept) in [
        (Value::Zero, Value::One),
        (Value::Z, Value::X),
        (Value::One, Value::Z),
    ] {
        writer.set(set, shown, kept)?;
        same(rt, "shown", writer.shown(set), shown);
        same(rt, "kept", writer.kept(set), kept);
        same(rt, "another place", writer.shown(other), Value::X);
    }
    Ok(())
}

fn check_blank(rt: &impl Abort, alloc: Global, design: &Design, stim: &Stim) -> Result<(), Fail>
    requires nets { length design.now.nets ≡ 2 }
    requires times { length stim.now.times ≡ 2 }
    requires rounds { stim.now.rounds ≡ 2 }
{
    let mut writer = HistoryWriter::blank(alloc, design, stim)?;
    writer.next_step()?;
    check_set(rt, &mut writer)
}

#[test]
fn a_place_has_what_was_set(rt: HostRuntime) -> Result<(), Fail> {
    let design = two_nets(rt.alloc())?;
    let stim = two_moments(rt.alloc())?;
    check_blank(&rt, rt.alloc(), &design, &stim)
}
