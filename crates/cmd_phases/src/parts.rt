//! A job: a design, and what was recorded of it.

ghost use Rattle.std.proofs.Props.{props};
ghost use Rattle.design_circuit.specs.Handed.{IsReplay};
ghost use Rattle.cmd_job.specs.Compared.{job_for};
ghost use Rattle.cmd_phases.specs.Parts.{FitsParts-prop};
ghost use Rattle.cmd_phases.specs.Repair.{FitsParts};

use cmd_job::{Netlist, Recorded};
use design_circuit::History;

/// The design of a job with its order, and a recording of it with its binding and its stimulus.
#[derive(Drop)]
pub struct Parts {
    pub netlist: Netlist,
    pub recorded: Recorded,
}

/// A job whose parts fit.
#[derive(Drop)]
pub struct Fitted {
    pub parts: Parts,
    pub ghost fits: { FitsParts parts } by { FitsParts-prop parts },
}

/// A job whose parts fit and whose recording agrees with its replay, and the replay.
#[derive(Drop)]
pub struct Agreed {
    pub parts: Parts,
    pub history: History,
    pub ghost fits: { FitsParts parts } by { FitsParts-prop parts },
    pub ghost replay: { IsReplay (job_for parts.netlist parts.recorded) history } by { Prim.hlevel props },
}
