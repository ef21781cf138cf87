//! The walk over the places of a job, piece by piece.

ghost use Rattle.std.specs.Prelude.{◌≡◌, IfErr, IfOk};
ghost use Rattle.design_circuit.specs.Parts.{PartsFit};
ghost use Rattle.design_circuit.specs.Handed.{IsHandedIn, IsReplay};
ghost use Rattle.design_circuit.specs.Job.{job_of};
ghost use Rattle.decide_repair.specs.Step.{RefusedStep};
ghost use Rattle.decide_repair.specs.Walk.{left_of};
ghost use Rattle.wave_proved.specs.Contents.{AreLimits};
ghost use Rattle.base_run.specs.Prepared.{IsJudgedBy};
ghost use Rattle.cmd_phases.specs.Phases.{walk_cause};
ghost use Rattle.cmd_phases.specs.Repair.{IsRepairedBy, ReplayWalkComes, WalkComes, WaveComes};

use crate::cause::Refused;
use crate::objection::objection_of;
use crate::parts::Agreed;
use base_run::Refusal;
use base_shelf::Sink;
use cmd_job::Netlist;
use decide_repair::{RepairErr, Walk};
use design_circuit::{Circuit, History, Stim};
use law_model::Limits;
use std::alloc::Global;
use wave_proved::Wave;

/// How many places that take a search are written between two looks at how far the walk has come.
const PIECE: usize = 64;

/// The finished wave of a job. The sink is told how far the walk has come.
#[tactic(auto, using(crate::proofs::Jobs::circuit_fits))]
pub fn wave_of<'b, O: Sink>(
    alloc: Global,
    agreed: &'b Agreed,
    limits: Limits,
    out: &mut O,
) -> Result<Wave<'b>, Refusal<Refused>>
    requires limits { AreLimits limits }
    ensures repaired { let parts = agreed.now.parts in
        IfOk result (IsRepairedBy limits parts.netlist parts.recorded.stim agreed.now.history) }
    ensures refused { let parts = agreed.now.parts in
        IfErr result (IsJudgedBy (WalkComes limits parts.netlist parts.recorded) walk_cause) }
    ensures out { O.view out.new ≡ O.view out.old }
{
    let netlist = &agreed.parts.netlist;
    let stim = &agreed.parts.recorded.stim;
    wave_under(alloc, netlist, stim, &agreed.history, limits, out)
}

/// The finished wave of a design under a stimulus, over its replay or a blank history. The sink hears how far it came.
pub fn wave_under<'b, O: Sink>(
    alloc: Global,
    netlist: &'b Netlist,
    stim: &'b Stim,
    history: &'b History,
    limits: Limits,
    out: &mut O,
) -> Result<Wave<'b>, Refusal<Refused>>
    requires fits { PartsFit netlist.now.design netlist.now.order stim.now }
    requires handed { IsHandedIn (job_of netlist.now.design netlist.now.order stim.now) history.now }
    requires limits { AreLimits limits }
    ensures repaired { IfOk result (IsRepairedBy limits netlist.now stim.now history.now) }
    ensures refused { IfErr result (IsJudgedBy (WaveComes limits netlist.now stim.now history.now) walk_cause) }
    ensures out { O.view out.new ≡ O.view out.old }
{
    let circuit = Circuit {
        design: &netlist.design,
        order: &netlist.order,
        stim,
    };
    let walk = Walk::new(alloc, circuit, history, limits)?;
    match walk_on(alloc, walk, out) {
        Ok(walk) => Ok(walk.into_wave()),
        Err(RepairErr::Optimistic(found)) => Err(Refusal::Text {
            cause: Refused::Optimistic(objection_of(alloc, netlist, stim, &found)?),
        }),
        Err(RepairErr::Memory) => Err(Refusal::Memory),
    }
}

/// The finished wave of a design under a stimulus, over its replay. The sink is told how far the walk has come.
pub fn replay_wave<'b, O: Sink>(
    alloc: Global,
    netlist: &'b Netlist,
    stim: &'b Stim,
    history: &'b History,
    limits: Limits,
    out: &mut O,
) -> Result<Wave<'b>, Refusal<Refused>>
    requires fits { PartsFit netlist.now.design netlist.now.order stim.now }
    requires replay { IsReplay (job_of netlist.now.design netlist.now.order stim.now) history.now }
    requires limits { AreLimits limits }
    ensures repaired { IfOk result (IsRepairedBy limits netlist.now stim.now history.now) }
    ensures refused { IfErr result (IsJudgedBy (ReplayWalkComes limits netlist.now stim.now) walk_cause) }
    ensures out { O.view out.new ≡ O.view out.old }
{
    wave_under(alloc, netlist, stim, history, limits, out)
}

/// Goes on to the end.
fn walk_on<'b, O: Sink>(alloc: Global, walk: Walk<'b>, out: &mut O) -> Result<Walk<'b>, RepairErr>
    ensures start { IfOk result (λ walked. walked.start ≡ walk.entry.start) }
    ensures finished { IfOk result (λ walked. left_of walked ≡ 0) }
    ensures refused { IfErr result (RefusedStep walk.entry.start) }
    ensures out { O.view out.new ≡ O.view out.old }
{
    let mut walked = walk;
    'pieces: while !walked.is_finished() {
        walked = walked.go_on(alloc, PIECE)?;
        out.progress(walked.count(), walked.all());
    }
    Ok(walked)
}
