//! Which bound variable gives the value of a net, and whether each input has one.

ghost use Rattle.std.specs.Prelude.{◌≡◌, ◌↔◌, ◌<◌, ◌≤◌, ◌^◌, List, IsTrue, All, IfOk, length};
ghost use Rattle.design_circuit.specs.Job.{driver_in};
ghost use Rattle.recording_binding.specs.Holding.{FitsHeld, GivesBits, GivesNet, Holds};
ghost use Rattle.recording_binding.specs.Refusal.{FindsMissing};
ghost use Rattle.recording_binding.specs.declared.binding.Bound.{Bound as bound_variable};

use crate::binding::Bound;
use base_lists::Memory;
use design_circuit::{Design, Driver};
use std::alloc::Global;

/// A bit of a variable of the recording, counted from the left.
#[derive(Clone, Copy)]
pub struct Holder {
    pub variable: u32,
    pub bit: u32,
}

/// For each net the first bound variable that has it among its bits. Takes 12 bytes for each.
pub fn holders_of(
    alloc: Global,
    design: &Design,
    bound: &[Bound],
) -> Result<Vec<Option<Holder>>, Memory>
    requires { All (FitsHeld design.now) bound.now }
    ensures { IfOk result (λ holders. Holds design.now bound.now holders.items) }
{
    let mut holders = vec![in alloc; None; design.nets.as_slice().len()]?;
    'bound: for b in bound {
        hold_bits(holders.as_mut_slice(), b.variable, b.bits.as_slice());
    }
    Ok(holders)
}

/// Gives those of these nets to a variable that no variable before has.
fn hold_bits(holders: &mut [Option<Holder>], variable: u32, bits: &[u32])
    requires within { All (λ net. net < length holders.old) bits.now }
    requires few { length bits.now ≤ 2 ^ 20 }
    ensures long { length holders.new ≡ length holders.old }
    ensures each { GivesBits holders.old holders.new variable bits.now }
{
    'bits: for (bit, net) in bits.iter().enumerate() {
        let bit = bit as u32;
        hold(holders, *net, Holder { variable, bit });
    }
}

/// Gives a net to a bit of a variable, where no variable has it.
pub fn hold(holders: &mut [Option<Holder>], net: u32, holder: Holder)
    requires { net < length holders.old }
    ensures long { length holders.new ≡ length holders.old }
    ensures each { GivesNet holders.old holders.new net holder }
{
    match holders[net as usize] {
        Some(_) => {}
        None => holders[net as usize] = Some(holder),
    }
}

/// The least input that no variable holds.
pub fn missing_input(design: &Design, holders: &[Option<Holder>]) -> Option<u32>
    requires few { length design.now.nets ≤ 2 ^ 20 }
    requires long { length holders.now ≡ length design.now.nets }
    ensures { (bound : List bound_variable) →
        Holds design.now bound holders.now → FindsMissing design.now bound result }
{
    'nets: for (net, holder) in holders.iter().enumerate() {
        if is_input(design, net as u32) && holder.is_none() {
            return Some(net as u32);
        }
    }
    None
}

/// Whether the stimulus drives a net.
pub fn is_input(design: &Design, net: u32) -> bool
    requires { net < length design.now.nets }
    ensures { IsTrue result ↔ (driver_in design.now net ≡ Driver.Input) }
{
    matches!(design.nets.as_slice()[net as usize].driver, Driver::Input)
}
