//! A stimulus whose registers start with given bits.

ghost use Rattle.std.specs.Prelude.{◌≡◌, ◌<◌, ◌≤◌, ◌^◌, None, Some, IfErr, IfOk, IfSome, OnOk, length};
ghost use Rattle.design_circuit.specs.Design.{FitsDesign};
ghost use Rattle.design_circuit.specs.Stim.{FitsStim};
ghost use Rattle.report_fix.specs.Fault.{fault_in};
ghost use Rattle.report_fix.specs.Started as spec;

use crate::refusal::{FixErr, StartFault};
use crate::registers::Registers;
use base_lists::{Items, Memory};
use design_cell::Value;
use design_circuit::{Bytes, Design, Stim};
use elab_names::NameSet;
use std::alloc::Global;

/// The stimulus with these bits as starts, each of the register with a written name, and all else equal; or the first
/// piece at fault. Takes as much memory as the stimulus, the written names of all registers once, and a few words for
/// each register and each piece; and time linear in all these.
pub fn with_starts(
    alloc: Global,
    design: &Design,
    stim: &Stim,
    sets: &[(Bytes, bool)],
) -> Result<Stim, FixErr>
    requires design { FitsDesign design.now }
    requires stim { FitsStim design.now stim.now }
    ensures started { IfOk result (spec.IsStarted design.now stim.now sets.now) }
    ensures refused { IfErr result (λ e. IfSome (fault_in e)
        (spec.IsFirstFault design.now stim.now.starts sets.now)) }

    // so it fits too, and only unknown starts were set
    ensures fits { IfOk result (FitsStim design.now) }
    ensures unknown { IfOk result (spec.SetsUnknown design.now stim.now) }
{
    let starts = started(alloc, design, stim.starts.as_slice(), sets)?;
    let times = copied_times(alloc, stim.times.as_slice())?;
    let inputs = stim.inputs.copied(alloc)?;
    Ok(Stim {
        times: Items::from_vec(times),
        rounds: stim.rounds,
        inputs,
        rules: stim.rules,
        starts: Items::from_vec(starts),
    })
}

/// The starts with the bits of the pieces.
fn started(
    alloc: Global,
    design: &Design,
    starts: &[Value],
    sets: &[(Bytes, bool)],
) -> Result<Vec<Value>, FixErr>
    requires design { length design.now.nets ≤ 2 ^ 20 }
    requires starts { length starts.now ≡ length design.now.nets }
    ensures fine { OnOk result (spec.AreFine design.now starts.now sets.now (length sets.now)) }
    ensures started { IfOk result (λ new. new.items ≡ spec.started design.now starts.now sets.now) }
    ensures refused { IfErr result (λ e. IfSome (fault_in e) (spec.IsFirstFault design.now starts.now sets.now)) }
{
    let registers = Registers::new(alloc, design)?;
    let mut names = NameSet::new(alloc);
    let mut new = copied(alloc, starts)?;
    'pieces: for index in 0..sets.len() {
        let name = sets[index].0.as_slice();
        let fresh = names.add(name)?;
        let net = register_of(registers.find(name), !fresh, starts, index + 1)?;
        new[net as usize] = Value::from_bit(sets[index].1);
    }
    Ok(new)
}

/// The register of a piece with this number, or why the piece is at fault.
fn register_of(
    net: Option<u32>,
    again: bool,
    starts: &[Value],
    index: usize,
) -> Result<u32, StartFault>
    requires { IfSome net (λ n. n < length starts.now) }
    ensures register { IfOk result (λ n. net ≡ Some n) }
    ensures fine { OnOk result (spec.fault_by net again starts.now index ≡ None) }
    ensures fault { IfErr result (λ e. spec.fault_by net again starts.now index ≡ Some e) }
{
    let Some(net) = net else {
        return Err(StartFault::NoRegister { index });
    };
    if again {
        return Err(StartFault::Twice { index });
    }
    match starts[net as usize] {
        Value::X => Ok(net),
        _ => Err(StartFault::KnownStart { index }),
    }
}

fn copied(alloc: Global, values: &[Value]) -> Result<Vec<Value>, Memory>
    ensures { IfOk result (λ copy. copy.items ≡ values.now) }
{
    Ok(values.to_vec(alloc)?)
}

fn copied_times(alloc: Global, times: &[u64]) -> Result<Vec<u64>, Memory>
    ensures { IfOk result (λ copy. copy.items ≡ times.now) }
{
    Ok(times.to_vec(alloc)?)
}
