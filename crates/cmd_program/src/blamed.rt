//! The repair of a job, and what is to blame for the bits that stay unknown.

ghost use Rattle.std.specs.Prelude.{◌≡◌, IfOk};
ghost use Rattle.base_run.specs.Prepared.{PreparedAlone, answer_of};
ghost use Rattle.cmd_program.specs.Blame.{blame_values, ListsBlame, walk_blamed};
ghost use Rattle.cmd_phases.specs.Repair.{IsWaveOf};

use crate::checked::ready_with;
use crate::commands::blame::Blame;
use base_lists::Memory;
use base_run::{Ready, Refusal, Report};
use base_shelf::Sink;
use cmd_phases::{Agreed, Refused, blame_text, wave_of};
use std::alloc::Global;
use wave_proved::Wave;

/// The walk over the places of a job that agrees, and what is to blame.
pub fn blamed<'a, O: Sink>(
    alloc: Global,
    words: &Blame<'a>,
    agreed: &Agreed,
    out: &mut O,
) -> Result<Ready<'a>, Refusal<Refused>>
    ensures prepared { PreparedAlone (walk_blamed (blame_values words.now) agreed.now.parts)
        answer_of result }
    ensures out { O.view out.new ≡ O.view out.old }
{
    let wave = wave_of(alloc, agreed, words.limits, out)?;
    Ok(listed(alloc, agreed, &wave)?)
}

/// What is to blame for the unknown bits of a finished wave of a job.
fn listed<'a>(alloc: Global, agreed: &Agreed, wave: &Wave<'_>) -> Result<Ready<'a>, Memory>
    requires wave { IsWaveOf agreed.now.parts.netlist agreed.now.parts.recorded wave.now }
    ensures { let bound = agreed.now.parts.recorded.binding.bound in
        IfOk result (λ ready. ListsBlame bound wave.now (answer_of ready)) }
{
    let text = blame_text(alloc, wave, &agreed.parts.recorded.binding)?;
    Ok(ready_with(alloc, Report::new(alloc, text)?))
}
