//! The repair of a job, and its texts.

ghost use Rattle.std.specs.Prelude.{◌≡◌};
ghost use Rattle.base_run.specs.Prepared.{PreparedAlone, answer_of};
ghost use Rattle.cmd_program.specs.Repair.{repair_values, walk_phases};

use crate::commands::repair::Repair;
use crate::texts::texts_of;
use base_run::{Ready, Refusal};
use base_shelf::Sink;
use cmd_phases::{Agreed, Refused, wave_of};
use std::alloc::Global;

/// The walk over the places of a job that agrees, and its texts.
pub fn repaired<'a, O: Sink>(
    alloc: Global,
    words: &Repair<'a>,
    agreed: &Agreed,
    out: &mut O,
) -> Result<Ready<'a>, Refusal<Refused>>
    ensures prepared { PreparedAlone (walk_phases (repair_values words.now) agreed.now.parts)
        answer_of result }
    ensures out { O.view out.new ≡ O.view out.old }
{
    let wave = wave_of(alloc, agreed, words.limits, out)?;
    Ok(texts_of(alloc, words, agreed, &wave)?)
}
