//! The recording of a job.

ghost use Rattle.std.specs.Prelude.{◌≡◌, ◌≤◌, ◌^◌, IfOk, IfErr, length};
ghost use Rattle.design_circuit.specs.Design.{FitsDesign};
ghost use Rattle.cmd_job.specs.Netlist.{FitsNetlist};
ghost use Rattle.cmd_job.specs.Recorded as spec;

use crate::names::{joined, name_of, variable_name};
use crate::netlist::Netlist;
use crate::recording_refusal::{RecordingErr, RecordingRefusal};
use crate::settings::Settings;
use base_lists::{Items, Memory};
use design_circuit::{Bytes, Design, Stim};
use recording_binding::{
    BindErr, Binding, Holder, UndrivenRule, bind, holders_by, stim_of, with_inputs,
};
use recording_reader::{Recording, read_vcd};
use std::alloc::Global;
use std::mem;

/// The most places of a job where nothing else is said: nets by moments by rounds.
pub const PLACES: u64 = 1 << 27;

/// A recording of a design, its variables bound to the design's nets, and the stimulus that they give.
#[derive(Drop)]
pub struct Recorded {
    pub recording: Recording,
    pub binding: Binding,
    pub stim: Stim,
}

/// What a text records of a netlist's design in a scope, for a replay of a given number of rounds and of at most so
/// many places, by some rules; or why there is none. Where there is one, the netlist becomes the job's: nets without a
/// driver that the recording holds are inputs where the rules say so.
pub fn read_recording(
    alloc: Global,
    netlist: &mut Netlist,
    text: &[u8],
    settings: Settings<'_>,
) -> Result<Recorded, RecordingErr>
    requires size { length text.now ≤ 2 ^ 28 }
    requires fits { FitsNetlist netlist.old }
    ensures recorded { let s = settings.entry in
        IfOk result (spec.IsRecorded text.now netlist.old.design s.scope.now s.rounds s.most s.rules) }
    ensures netlist { IfOk result (λ r.
        netlist.new ≡ spec.job_netlist settings.entry.rules.undriven netlist.old r.binding.bound) }
    ensures refused { let s = settings.entry in IfErr result (spec.IfRecordingRefused
        (spec.IsRefusedRecording text.now netlist.old.design s.scope.now s.rounds s.most)) }
    ensures exact { let s = settings.entry in
        spec.IsRecordingAnswer text.now netlist.old.design s.scope.now s.rounds s.most s.rules result }
    ensures fits { IfOk result (spec.FitsRecorded netlist.new.design) }
    ensures fits_netlist { IfOk result (λ _. FitsNetlist netlist.new) }
{
    find_recording(alloc, netlist, text, settings)
}

fn find_recording(
    alloc: Global,
    netlist: &mut Netlist,
    text: &[u8],
    settings: Settings<'_>,
) -> Result<Recorded, RecordingErr>
    requires size { length text.now ≤ 2 ^ 28 }
    requires fits { FitsNetlist netlist.old }
    ensures recorded { let s = settings.entry in
        IfOk result (spec.IsRecorded text.now netlist.old.design s.scope.now s.rounds s.most s.rules) }
    ensures netlist { IfOk result (λ r.
        netlist.new ≡ spec.job_netlist settings.entry.rules.undriven netlist.old r.binding.bound) }
    ensures refused { let s = settings.entry in IfErr result (spec.IfRecordingRefused
        (spec.IsRefusedRecording text.now netlist.old.design s.scope.now s.rounds s.most)) }
    ensures fits { IfOk result (spec.FitsRecorded netlist.new.design) }
    ensures fits_netlist { IfOk result (λ _. FitsNetlist netlist.new) }
{
    let recording = read_vcd(alloc, text)?;
    let binding = bind_variables(alloc, &netlist.design, &recording, settings)?;
    let holders = holders_by(
        alloc,
        &netlist.design,
        &netlist.order,
        &binding,
        settings.rules.undriven,
    )?;
    give_inputs(alloc, netlist, holders.as_slice(), settings.rules.undriven);
    let stim = stim_of(
        alloc,
        &netlist.design,
        &recording,
        holders.as_slice(),
        settings.rounds,
        settings.rules.registers,
    )?;
    Ok(Recorded {
        recording,
        binding,
        stim,
    })
}

/// Makes nets without a driver that are held inputs, where the rule says so.
fn give_inputs(alloc: Global, netlist: &mut Netlist, holders: &[Option<Holder>], rule: UndrivenRule)
    requires { length holders.now ≡ length netlist.old.design.nets }
    ensures { netlist.new ≡ spec.netlist_by rule holders.now netlist.old }
{
    match rule {
        UndrivenRule::Released => {}
        UndrivenRule::Recorded => {
            let design = mem::replace(&mut netlist.design, no_design(alloc));
            netlist.design = with_inputs(design, holders);
        }
    }
}

/// A design without a net.
fn no_design(alloc: Global) -> Design {
    Design {
        nets: Items::from_vec(Vec::new(alloc)),
        udps: Items::from_vec(Vec::new(alloc)),
    }
}

/// The variables of a recording, bound, or why they aren't.
fn bind_variables(
    alloc: Global,
    design: &Design,
    recording: &Recording,
    settings: Settings<'_>,
) -> Result<Binding, RecordingErr>
    requires { FitsDesign design.now }
    ensures bound { let s = settings.entry in
        IfOk result (spec.IsBoundTo design.now recording.now s.scope.now s.rounds s.most) }
    ensures refused { let s = settings.entry in
        IfErr result (spec.IfRecordingRefused (spec.IsUnbound design.now recording.now s.scope.now s.rounds s.most)) }
{
    let Settings {
        scope,
        rounds,
        most,
        ..
    } = settings;
    match bind(alloc, design, recording, scope, rounds, most) {
        Ok(binding) => Ok(binding),
        Err(cause) => Err(RecordingErr::Refused(report_cause(
            alloc, design, recording, scope, cause,
        )?)),
    }
}

/// A refusal with the names that it prints.
fn report_cause(
    alloc: Global,
    design: &Design,
    recording: &Recording,
    scope: &[Bytes],
    cause: BindErr,
) -> Result<RecordingRefusal, Memory>
    requires { spec.IsNamed design.now recording.now scope.now cause }
    ensures { IfOk result (spec.Reports design.now recording.now scope.now cause) }
{
    match cause {
        BindErr::NoScope => Ok(RecordingRefusal::NoScope {
            name: joined(alloc, scope)?,
        }),
        BindErr::RangeDiffers { variable } => Ok(RecordingRefusal::RangeDiffers {
            name: variable_name(alloc, recording, scope, variable)?,
        }),
        BindErr::MissingInput { net } => Ok(RecordingRefusal::MissingInput {
            name: name_of(alloc, design, net)?,
        }),
        BindErr::TooLarge { places } => Ok(RecordingRefusal::TooLarge { places }),
        BindErr::Memory => Err(Memory),
    }
}
