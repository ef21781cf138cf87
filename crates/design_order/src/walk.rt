//! The loop of a design that has no order: a walk from net to argument that comes to a net again.

ghost use Rattle.std.specs.Prelude.{◌≡◌, ◌<◌, ◌^◌, false, Some, IfOk, length, drop};
ghost use Rattle.std.specs.List.{count_by};
ghost use Rattle.design_circuit.specs.Job.{driver_in};
ghost use Rattle.design_circuit.specs.Order.{arguments_of_driver};
ghost use Rattle.design_circuit.specs.Design.{FitsDesign};
ghost use Rattle.design_order.specs.Loop.{IsToldLoop};
ghost use Rattle.design_order.specs.Held.{AreListed, IsStuck};
ghost use Rattle.design_order.specs.Progress.{can_come, flag_at, first_open, IsLeastOpen};

use crate::progress::{Progress, first_open_of};
use base_lists::Memory;
use design_circuit::Design;
use std::alloc::{AllocError, Global};

/// The loop that is told where no net can come behind the listed ones. Takes some 20 bytes for each net.
pub fn told_loop(alloc: Global, design: &Design, progress: &Progress) -> Result<Vec<u32>, Memory>
    requires design { FitsDesign design.now }
    requires listed { AreListed design.now progress.now }
    requires open_ { length progress.now.listed.items < length design.now.nets }
    requires stuck { IsStuck design.now progress.now }
    ensures { IfOk result (λ nets. IsToldLoop (driver_in design.now) (length design.now.nets) nets.items) }
{
    let mut places = vec![in alloc; None; progress.flags.len()]?;
    let mut walk = Vec::new(alloc);
    let mut net = least_open(&progress.flags);
    'walk: loop {
        if let Some(from) = places[net as usize] {
            return Ok(tail(alloc, &walk, from)?);
        }
        places[net as usize] = Some(walk.len());
        walk.push(net)?;
        net = next_open(design, &progress.flags, net);
    }
}

/// The least net that isn't listed.
fn least_open(flags: &[bool]) -> u32
    requires few { length flags.now < 2 ^ 32 }
    requires open_ { count_by (λ flag. flag) flags.now < length flags.now }
    ensures { IsLeastOpen flags.now result }
{
    for (net, flag) in flags.iter().enumerate() {
        if !*flag {
            return net as u32;
        }
    }
    unreachable!()
}

/// The first argument of a net that isn't listed, where the net can't come for want of one.
fn next_open(design: &Design, flags: &[bool], net: u32) -> u32
    requires design { FitsDesign design.now }
    requires long { length flags.now ≡ length design.now.nets }
    requires net { net < length design.now.nets }
    requires open_ { flag_at flags.now net ≡ false }
    requires stuck { can_come (driver_in design.now) flags.now net ≡ false }
    ensures { first_open flags.now (arguments_of_driver (driver_in design.now net)) ≡ Some result }
{
    match first_open_of(design, flags, net) {
        Some(argument) => argument,
        None => unreachable!(),
    }
}

fn tail(alloc: Global, walk: &[u32], from: usize) -> Result<Vec<u32>, AllocError>
    requires { from < length walk.now }
    ensures { IfOk result (λ nets. nets.items ≡ drop from walk.now) }
{
    Vec::from_slice(alloc, &walk[from..])
}
