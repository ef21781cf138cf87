//! What holds each net of a design by a rule.

ghost use Rattle.std.specs.Prelude.{◌≡◌, ◌<◌, ◌≤◌, ◌^◌, ℕ, All, IfOk, length, map, slice_index};
ghost use Rattle.design_circuit.specs.Design.{FitsDesign};
ghost use Rattle.design_circuit.specs.Job.{driver_in};
ghost use Rattle.design_circuit.specs.Order.{IsOrder};
ghost use Rattle.recording_reader.specs.Recording.{Recording};
ghost use Rattle.recording_binding.specs.Binding.{FitsBinding};
ghost use Rattle.recording_binding.specs.Bounds.{IsOf};
ghost use Rattle.recording_binding.specs.Holding.{FitsHeld, GivesBits, Holds, HoldsBy, held_in};
ghost use Rattle.recording_binding.specs.JobDesign.{holder_at, holder_by};
ghost use Rattle.recording_binding.specs.Originals.{AreOriginals, with_originals};
ghost use Rattle.recording_binding.specs.StimOf.{AreHolders};

use crate::binding::{Binding, Bound};
use crate::inputs::{Holder, hold, holders_of};
use crate::originals::originals_of;
use crate::rule::UndrivenRule;
use base_lists::Memory;
use design_circuit::{Design, Driver, Order};
use std::alloc::Global;

/// For each net of a design what holds it by a rule. Takes 12 bytes for each net, and where nets without a driver are
/// as recorded 16 more while it runs.
pub fn holders_by(
    alloc: Global,
    design: &Design,
    order: &Order,
    bound: &Binding,
    rule: UndrivenRule,
) -> Result<Vec<Option<Holder>>, Memory>
    requires design { FitsDesign design.now }
    requires order { IsOrder (driver_in design.now) (length design.now.nets) order.now }
    requires fits { FitsBinding design.now bound.now }
    ensures holds { IfOk result (λ holders.
        HoldsBy (holder_by rule design.now bound.now.bound) design.now holders.items) }
    ensures known { IfOk result (λ holders. (recording : Recording) → All (IsOf recording) bound.now.bound
        → AreHolders recording holders.items) }
{
    let bound = bound.bound.as_slice();
    match rule {
        UndrivenRule::Released => holders_of(alloc, design, bound),
        UndrivenRule::Recorded => recorded_holders(alloc, design, order, bound),
    }
}

/// So where nets without a driver are as recorded.
fn recorded_holders(
    alloc: Global,
    design: &Design,
    order: &Order,
    bound: &[Bound],
) -> Result<Vec<Option<Holder>>, Memory>
    requires design { FitsDesign design.now }
    requires order { IsOrder (driver_in design.now) (length design.now.nets) order.now }
    requires fits { All (FitsHeld design.now) bound.now }
    ensures { IfOk result (λ holders.
        HoldsBy (holder_by UndrivenRule.Recorded design.now bound.now) design.now holders.items) }
{
    let mut holders = holders_of(alloc, design, bound)?;
    let copied = copied_holders(alloc, design, order, bound)?;
    choose_copied(design, holders.as_mut_slice(), copied.as_slice());
    Ok(holders)
}

/// For each net the first bound variable that has among its bits the net or a net that copies it.
fn copied_holders(
    alloc: Global,
    design: &Design,
    order: &Order,
    bound: &[Bound],
) -> Result<Vec<Option<Holder>>, Memory>
    requires design { FitsDesign design.now }
    requires order { IsOrder (driver_in design.now) (length design.now.nets) order.now }
    requires fits { All (FitsHeld design.now) bound.now }
    ensures { IfOk result (λ holders.
        Holds design.now (map (with_originals design.now) bound.now) holders.items) }
{
    let originals = originals_of(alloc, design, order)?;
    held_through(alloc, design, originals.as_slice(), bound)
}

/// So by the originals of the nets.
fn held_through(
    alloc: Global,
    design: &Design,
    originals: &[u32],
    bound: &[Bound],
) -> Result<Vec<Option<Holder>>, Memory>
    requires design { FitsDesign design.now }
    requires originals { AreOriginals design.now originals.now }
    requires fits { All (FitsHeld design.now) bound.now }
    ensures { IfOk result (λ holders.
        Holds design.now (map (with_originals design.now) bound.now) holders.items) }
{
    let mut holders = vec![in alloc; None; design.nets.as_slice().len()]?;
    'bound: for b in bound {
        let bits = b.bits.as_slice();
        hold_originals(holders.as_mut_slice(), originals, b.variable, bits);
    }
    Ok(holders)
}

/// Gives the originals of these nets to a variable where no variable before has them.
fn hold_originals(holders: &mut [Option<Holder>], originals: &[u32], variable: u32, bits: &[u32])
    requires within { All (λ net. net < length originals.now) bits.now }
    requires listed { All (λ net. net < length holders.old) originals.now }
    requires few { length bits.now ≤ 2 ^ 20 }
    ensures long { length holders.new ≡ length holders.old }
    ensures each { GivesBits holders.old holders.new variable (map (slice_index originals.now) bits.now) }
{
    'bits: for (bit, net) in bits.iter().enumerate() {
        let bit = bit as u32;
        hold(holders, originals[*net as usize], Holder { variable, bit });
    }
}

/// Takes for each net without a driver what is in the second list.
fn choose_copied(design: &Design, holders: &mut [Option<Holder>], copied: &[Option<Holder>])
    requires few { length design.now.nets ≤ 2 ^ 20 }
    requires own { length holders.old ≡ length design.now.nets }
    requires copied { length copied.now ≡ length design.now.nets }
    ensures long { length holders.new ≡ length holders.old }
    ensures each { (net : ℕ) → net < length design.now.nets → held_in holders.new net
        ≡ holder_at (driver_in design.now net) (held_in holders.old net) (held_in copied.now net) }
{
    'nets: for (net, holder) in copied.iter().enumerate() {
        let chosen = chosen_of(design, net as u32, holders[net], *holder);
        holders[net] = chosen;
    }
}

/// What holds a net: the second where it has no driver, else the first.
fn chosen_of(
    design: &Design,
    net: u32,
    own: Option<Holder>,
    copied: Option<Holder>,
) -> Option<Holder>
    requires { net < length design.now.nets }
    ensures { result ≡ holder_at (driver_in design.now net) own copied }
{
    match &design.nets.as_slice()[net as usize].driver {
        Driver::Undriven => copied,
        _ => own,
    }
}
