//! What texts come to, as phases of a command.

ghost use Rattle.std.specs.Prelude.{◌≡◌, ◌<◌, ◌≤◌, ◌^◌, length, IfOk};
ghost use Rattle.design_circuit.specs.Handed.{IsReplay};
ghost use Rattle.cmd_job.specs.Compared.{job_for};
ghost use Rattle.cmd_job.specs.Netlist.{FitsNetlist, NetlistComes};
ghost use Rattle.cmd_job.specs.Recorded.{FitsRecorded, RecordingComes, job_netlist};
ghost use Rattle.base_run.specs.Prepared.{Judged};
ghost use Rattle.cmd_phases.specs.Repair.{LengthComes, CompareComes};
ghost use Rattle.cmd_phases.specs.Phases.{compare_cause, itself, netlist_cause, nothing_in, recording_cause};

use crate::cause::Refused;
use crate::parts::Fitted;
use base_run::Refusal;
use cmd_job::{
    CompareErr, Netlist, NetlistErr, Recorded, RecordingErr, Rules, Settings, read_netlist,
    read_recording, replay_and_compare,
};
use design_circuit::{Bytes, History};
use std::alloc::Global;

/// A text of at most so many bytes; else the cause.
pub fn short_in(text: &[u8], limit: usize, cause: Refused) -> Result<(), Refusal<Refused>>
    ensures { Judged (LengthComes limit text.now) (λ long. cause) nothing_in result }
{
    if text.len() > limit {
        return Err(Refusal::Text { cause });
    }
    Ok(())
}

/// The design of a netlist's text.
pub fn netlist_in(alloc: Global, text: &[u8], top: &str) -> Result<Netlist, Refusal<Refused>>
    ensures judged { Judged (NetlistComes text.now top.now) netlist_cause itself result }
    ensures fits { IfOk result FitsNetlist }
{
    match read_netlist(alloc, text, top) {
        Ok(netlist) => Ok(netlist),
        Err(NetlistErr::Refused(cause)) => Err(Refusal::Text {
            cause: Refused::Netlist(cause),
        }),
        Err(NetlistErr::Memory) => Err(Refusal::Memory),
    }
}

/// What a text records of a netlist, which becomes the job's, for a replay of at most so many places, by some rules.
pub fn recorded_in(
    alloc: Global,
    netlist: &mut Netlist,
    text: &[u8],
    scope: &[Bytes],
    rounds: u32,
    most: u64,
    rules: Rules,
) -> Result<Recorded, Refusal<Refused>>
    requires size { length text.now ≤ 2 ^ 28 }
    requires fits { FitsNetlist netlist.old }
    requires some { 0 < length scope.now }
    requires round { 1 ≤ rounds }
    requires rounds { rounds ≤ 16 }
    requires most { most ≤ 2 ^ 40 }
    ensures judged { Judged (RecordingComes text.now netlist.old.design scope.now rounds most rules)
        recording_cause itself result }
    ensures netlist { IfOk result (λ r. netlist.new ≡ job_netlist rules.undriven netlist.old r.binding.bound) }
    ensures fits { IfOk result (FitsRecorded netlist.new.design) }
    ensures fits_netlist { IfOk result (λ _. FitsNetlist netlist.new) }
{
    let settings = Settings {
        scope,
        rounds,
        most,
        rules,
    };
    match read_recording(alloc, netlist, text, settings) {
        Ok(recorded) => Ok(recorded),
        Err(RecordingErr::Refused(cause)) => Err(Refusal::Text {
            cause: Refused::Recording(cause),
        }),
        Err(RecordingErr::Memory) => Err(Refusal::Memory),
    }
}

/// The replay of a job whose recording agrees with it.
pub fn compared(alloc: Global, job: &Fitted) -> Result<History, Refusal<Refused>>
    ensures judged { let parts = job.now.parts in
        Judged (CompareComes parts.netlist parts.recorded) compare_cause nothing_in result }
    ensures replay { IfOk result (IsReplay (job_for job.now.parts.netlist job.now.parts.recorded)) }
{
    match replay_and_compare(alloc, &job.parts.netlist, &job.parts.recorded) {
        Ok(history) => Ok(history),
        Err(CompareErr::Refused(cause)) => Err(Refusal::Text {
            cause: Refused::Compare(cause),
        }),
        Err(CompareErr::Memory) => Err(Refusal::Memory),
    }
}
