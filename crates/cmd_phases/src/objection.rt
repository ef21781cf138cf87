//! What the line of a refusal has of a place that is found otherwise than the replay knows it.

ghost use Rattle.std.specs.Prelude.{◌≡◌, IfOk, count_by};
ghost use Rattle.design_circuit.specs.Parts.{PartsFit};
ghost use Rattle.design_circuit.specs.Filling.{IsPlace};
ghost use Rattle.design_circuit.specs.Job.{job_of};
ghost use Rattle.cmd_phases.specs.Repair.{is_undecided_body, is_undecided_line, objection_of};

use crate::cause::Objection;
use base_lists::Memory;
use cmd_job::Netlist;
use design_circuit::{Bytes, Stim};
use law_model::{Body, Line};
use std::alloc::Global;
use wave_proved::Optimistic;

/// The place by its time, its round and the written name of its net.
pub fn objection_of(
    alloc: Global,
    netlist: &Netlist,
    stim: &Stim,
    found: &Optimistic,
) -> Result<Objection, Memory>
    requires fits { PartsFit netlist.now.design netlist.now.order stim.now }
    requires place { IsPlace (job_of netlist.now.design netlist.now.order stim.now) found.now.place }
    ensures { IfOk result (λ o. o ≡ objection_of netlist.now stim.now found.now) }
{
    let moment = found.place.step / stim.rounds;
    let name = netlist.design.written_name(alloc, found.place.net)?;
    Ok(Objection {
        time: stim.times.as_slice()[moment as usize],
        round: found.place.step % stim.rounds,
        name: Bytes::from_vec(name),
        replayed: found.replayed,
        found: found.found,
        undecided: count_undecided(found.lines.as_slice()),
    })
}

fn count_undecided(lines: &[Line]) -> usize
    ensures { result ≡ count_by is_undecided_line lines.now }
{
    lines.iter().filter(|line| is_undecided(&line.body)).count()
}

fn is_undecided(body: &Body) -> bool
    ensures { result ≡ is_undecided_body body.now }
{
    match body {
        Body::Undecided(_) => true,
        _ => false,
    }
}
