//! The netlist of a job.

ghost use Rattle.std.specs.Prelude.{IfOk, IfErr, length};
ghost use Rattle.netlist_grammar.specs.Whole.{IsWhole};
ghost use Rattle.design_circuit.specs.Design.{FitsDesign};
ghost use Rattle.design_circuit.specs.Job.{driver_in};
ghost use Rattle.design_circuit.specs.Order.{IsOrder};
ghost use Rattle.cmd_job.specs.Netlist as spec;

use crate::names::written_names;
use crate::netlist_refusal::{NetlistErr, NetlistRefusal};
use design_circuit::{Design, Order};
use design_order::{OrderErr, order};
use elab_design::elaborate;
use netlist_grammar::Source;
use netlist_reader::parse;
use std::alloc::Global;

/// More primitives than are numbered.
const MANY_PRIMITIVES: usize = 1 << 32;

/// A design and the order of its nets.
#[derive(Drop)]
pub struct Netlist {
    pub design: Design,
    pub order: Order,
}

/// The design that a text stands for, with the module named `top` as its top, and the order of its nets; or why there
/// is none.
pub fn read_netlist(alloc: Global, text: &[u8], top: &str) -> Result<Netlist, NetlistErr>
    ensures netlist { IfOk result (λ netlist. spec.IsOrdered text.now top.now netlist.design netlist.order) }
    ensures refused { IfErr result (spec.IfNetlistRefused (spec.IsRefusedNetlist text.now top.now)) }
    ensures exact { spec.IsNetlistAnswer text.now top.now result }
    ensures fits { IfOk result spec.FitsNetlist }
{
    find_netlist(alloc, text, top)
}

fn find_netlist(alloc: Global, text: &[u8], top: &str) -> Result<Netlist, NetlistErr>
    ensures netlist { IfOk result (λ netlist. spec.IsOrdered text.now top.now netlist.design netlist.order) }
    ensures refused { IfErr result (spec.IfNetlistRefused (spec.IsRefusedNetlist text.now top.now)) }
    ensures fits { IfOk result (λ netlist. FitsDesign netlist.design) }
{
    let tree = parse(alloc, text)?;
    let design = design_of(alloc, &tree, top)?;
    let order = order_of(alloc, &design)?;
    Ok(Netlist { design, order })
}

/// The design of a tree. More primitives than 32 bits number take more memory than there is.
fn design_of(alloc: Global, tree: &Source, top: &str) -> Result<Design, NetlistErr>
    requires { IsWhole tree.now }
    ensures design { IfOk result (spec.IsDesignIn tree.now top.now) }
    ensures refused { IfErr result (spec.IfNetlistRefused (spec.HasNoDesign tree.now top.now)) }
    ensures fits { IfOk result FitsDesign }
{
    if tree.primitives.as_slice().len() >= MANY_PRIMITIVES {
        return Err(NetlistErr::Memory);
    }
    let design = elaborate(alloc, tree, top)?;
    Ok(design)
}

/// The order of a design's nets, or the written names of a loop's.
fn order_of(alloc: Global, design: &Design) -> Result<Order, NetlistErr>
    requires { FitsDesign design.now }
    ensures order { IfOk result (IsOrder (driver_in design.now) (length design.now.nets)) }
    ensures refused { IfErr result (spec.IfNetlistRefused (spec.HasLoopIn design.now)) }
{
    match order(alloc, design) {
        Ok(order) => Ok(order),
        Err(OrderErr::Loop { nets }) => {
            let names = written_names(alloc, design, nets.as_slice())?;
            Err(NetlistErr::Refused(NetlistRefusal::Loop { names }))
        }
        Err(OrderErr::Memory) => Err(NetlistErr::Memory),
    }
}
