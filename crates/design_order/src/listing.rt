//! The order of a design's nets.

ghost use Rattle.std.specs.Prelude.{IfOk, IfErr, length};
ghost use Rattle.design_circuit.specs.Job.{driver_in};
ghost use Rattle.design_circuit.specs.Order.{IsOrder};
ghost use Rattle.design_circuit.specs.Design.{FitsDesign};
ghost use Rattle.design_order.specs.Loop.{HasNoLoop, IsRefusal};

use crate::progress::no_progress;
use crate::readers::readers_of;
use crate::refusal::OrderErr;
use crate::walk::told_loop;
use base_lists::Items;
use design_circuit::{Design, Order as NetOrder};
use std::alloc::Global;

/// The order of a design's nets: again and again the least net that isn't listed and whose arguments all are comes
/// next. Takes some 60 bytes for each net and up to 48 for each argument, of which the order keeps eight for each net.
pub fn order(alloc: Global, design: &Design) -> Result<NetOrder, OrderErr>
    requires { FitsDesign design.now }
    ensures order { IfOk result (λ order. IsOrder (driver_in design.now) (length design.now.nets) order) }
    ensures refused { IfErr result (λ refusal. IsRefusal design.now refusal) }
    ensures exact { IfOk result (λ _. HasNoLoop design.now) }
{
    let readers = readers_of(alloc, design)?;
    let mut progress = no_progress(alloc, design)?;
    'nets: for _n in 0..design.nets.as_slice().len() {
        if progress.list_next(design, &readers)?.is_none() {
            let nets = told_loop(alloc, design, &progress)?;
            return Err(OrderErr::Loop {
                nets: Items::from_vec(nets),
            });
        }
    }
    Ok(NetOrder::new(alloc, progress.listed)?)
}
