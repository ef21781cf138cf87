//! Starts that are set.

ghost use Rattle.std.specs.Prelude.{◌≡◌, ◌-◌, ◌==◌, IfOk, length, map, slice_index_or};
ghost use Rattle.design_circuit.specs.Parts.{PartsFit};
ghost use Rattle.design_circuit.specs.Design.{FitsDesign};
ghost use Rattle.design_circuit.specs.Handed.{IsReplay};
ghost use Rattle.design_circuit.specs.Job.{job_of};
ghost use Rattle.design_circuit.specs.Stim.{FitsStim};
ghost use Rattle.report_fix.specs.Started.{SetsUnknown};
ghost use Rattle.base_run.specs.Prepared.{Judged};
ghost use Rattle.cmd_phases.specs.Phases.{itself, start_cause};
ghost use Rattle.cmd_phases.specs.Sets as spec;

use crate::cause::Refused;
use crate::pieces::pieces_of;
use base_lists::Memory;
use base_run::Refusal;
use cmd_job::Netlist;
use design_circuit::{Bytes, Circuit, Forces, History, Stim};
use replay_history::replay;
use report_fix::{FixErr, with_starts};
use std::alloc::{AllocError, Global};

/// The names and bits of a list of starts, in time linear in the list.
pub fn sets_of(alloc: Global, list: &str) -> Result<Vec<(Bytes, bool)>, AllocError>
    ensures { IfOk result (λ sets. sets.items ≡ spec.sets_of list.now) }
{
    let pieces = pieces_of(alloc, list, b',')?;
    sets_in(alloc, pieces.as_slice())
}

fn sets_in(alloc: Global, pieces: &[Bytes]) -> Result<Vec<(Bytes, bool)>, AllocError>
    ensures { IfOk result (λ sets. sets.items ≡ map spec.set_of pieces.now) }
{
    let mut sets = Vec::with_capacity(alloc, pieces.len())?;
    'pieces: for piece in pieces {
        sets.push(set_of(alloc, piece.as_slice())?)?;
    }
    Ok(sets)
}

// piece = name "=" ( "0" | "1" )
fn set_of(alloc: Global, piece: &[u8]) -> Result<(Bytes, bool), AllocError>
    ensures { IfOk result (λ set. set ≡ spec.set_of piece.now) }
{
    let end = piece.len().saturating_sub(2);
    let name = piece[..end].to_vec(alloc)?;
    Ok((Bytes::from_vec(name), ends_in_one(piece)))
}

fn ends_in_one(piece: &[u8]) -> bool
    ensures { result ≡ (slice_index_or piece.now (length piece.now - 1) 48 == 49) }
{
    match piece.last() {
        Some(digit) => *digit == b'1',
        None => false,
    }
}

/// The stimulus with these bits as starts; or the first that can't be set.
pub fn started(
    alloc: Global,
    netlist: &Netlist,
    stim: &Stim,
    sets: &[(Bytes, bool)],
) -> Result<Stim, Refusal<Refused>>
    requires design { FitsDesign netlist.now.design }
    requires stim { FitsStim netlist.now.design stim.now }
    ensures judged { Judged (spec.StartsCome netlist.now stim.now sets.now) start_cause itself result }
    ensures fits { IfOk result (FitsStim netlist.now.design) }
    ensures unknown { IfOk result (SetsUnknown netlist.now.design stim.now) }
{
    match with_starts(alloc, &netlist.design, stim, sets) {
        Ok(new) => Ok(new),
        Err(FixErr::Refused(fault)) => Err(Refusal::Text {
            cause: Refused::Start(fault),
        }),
        Err(FixErr::Memory) => Err(Refusal::Memory),
    }
}

/// The replay of a design under a stimulus.
pub fn replay_of(alloc: Global, netlist: &Netlist, stim: &Stim) -> Result<History, Memory>
    requires { PartsFit netlist.now.design netlist.now.order stim.now }
    ensures { IfOk result (IsReplay (job_of netlist.now.design netlist.now.order stim.now)) }
{
    let circuit = Circuit {
        design: &netlist.design,
        order: &netlist.order,
        stim,
    };
    let forces = Forces::empty(alloc);
    let history = replay(alloc, &circuit, &forces)?;
    Ok(history)
}
