//! The replay of a job, compared with its recording.

ghost use Rattle.std.specs.Prelude.{◌≡◌, ◌<◌, ◌==◌, IfOk, IfErr, find, length, option_map};
ghost use Rattle.design_circuit.specs.Handed.{IsReplay};
ghost use Rattle.recording_binding.specs.Binding.{FitsBinding};
ghost use Rattle.replay_history.specs.Fault.{IsFaultless};
ghost use Rattle.cmd_job.specs.Compared as spec;
ghost use Rattle.cmd_job.specs.Names.{net_name};
ghost use Rattle.cmd_job.specs.Netlist.{FitsNetlist};
ghost use Rattle.cmd_job.specs.Recorded.{FitsRecorded};

use crate::compare_refusal::{CompareErr, CompareRefusal};
use crate::names::name_of;
use crate::netlist::Netlist;
use crate::recorded::Recorded;
use base_lists::Memory;
use design_circuit::{Bytes, Circuit, Forces, History};
use recording_binding::Bound;
use replay_history::{Differ, DifferErr, compare, replay};
use std::alloc::Global;

/// The replay of a job without forces, where each moment is settled and the recording agrees in it; or the first fault.
pub fn replay_and_compare(
    alloc: Global,
    netlist: &Netlist,
    recorded: &Recorded,
) -> Result<History, CompareErr>
    requires netlist { FitsNetlist netlist.now }
    requires recorded { FitsRecorded netlist.now.design recorded.now }
    ensures replay { IfOk result (IsReplay (spec.job_for netlist.now recorded.now)) }
    ensures agrees { IfOk result (λ _.
        IsFaultless (spec.job_for netlist.now recorded.now) recorded.now.recording recorded.now.binding) }
    ensures refused { IfErr result (spec.IfCompareRefused (spec.IsRefusedReplay netlist.now recorded.now)) }
    ensures exact { spec.IsReplayAnswer netlist.now recorded.now result }
{
    let circuit = Circuit {
        design: &netlist.design,
        order: &netlist.order,
        stim: &recorded.stim,
    };
    let forces = Forces::empty(alloc);
    let history = replay(alloc, &circuit, &forces)?;
    match compare(
        alloc,
        &circuit,
        &history,
        &recorded.recording,
        &recorded.binding,
    ) {
        Ok(()) => Ok(history),
        Err(DifferErr::Differs(differ)) => Err(CompareErr::Refused(report_difference(
            alloc, netlist, recorded, differ,
        )?)),
        Err(DifferErr::Memory) => Err(CompareErr::Memory),
    }
}

/// A fault by the time of its moment and the written name of its net.
fn report_difference(
    alloc: Global,
    netlist: &Netlist,
    recorded: &Recorded,
    differ: Differ,
) -> Result<CompareRefusal, Memory>
    requires there { spec.IsThere netlist.now recorded.now differ }
    requires binding { FitsBinding netlist.now.design recorded.now.binding }
    ensures { IfOk result (λ refusal. refusal ≡ spec.refusal_for netlist.now recorded.now differ) }
{
    match differ {
        Differ::Unsettled {
            net,
            moment,
            kept,
            next,
        } => Ok(CompareRefusal::Unsettled {
            time: recorded.recording.times()[moment as usize],
            name: name_of(alloc, &netlist.design, net)?,
            kept,
            next,
        }),
        Differ::Disagrees {
            variable,
            bit,
            moment,
            recorded: was,
            replayed,
        } => Ok(CompareRefusal::Disagrees {
            time: recorded.recording.times()[moment as usize],
            name: bit_name(alloc, netlist, recorded, variable, bit)?,
            recorded: was,
            replayed,
        }),
    }
}

/// The written name of the net of a bit of a bound variable, by the variable's number and counted from the left.
fn bit_name(
    alloc: Global,
    netlist: &Netlist,
    recorded: &Recorded,
    variable: u32,
    bit: u32,
) -> Result<Bytes, Memory>
    requires bit { bit < length (spec.bound_in recorded.now.binding.bound variable).bits }
    requires binding { FitsBinding netlist.now.design recorded.now.binding }
    ensures { IfOk result (λ name.
        name ≡ net_name netlist.now.design (spec.net_of_bit recorded.now.binding variable bit)) }
{
    match bound_in(recorded.binding.bound.as_slice(), variable) {
        Some(bound) => name_of(alloc, &netlist.design, bound.bits.as_slice()[bit as usize]),
        None => unreachable!(),
    }
}

/// The bound variable with a number.
fn bound_in(bounds: &[Bound], variable: u32) -> Option<&Bound>
    ensures { option_map (λ b. b.now) result ≡ find (λ b. b.variable == variable) bounds.now }
{
    bounds.iter().find(|bound| bound.variable == variable)
}
