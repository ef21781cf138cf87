//! The repair of a job, and what is written of it for other solvers.

ghost use Rattle.std.specs.Prelude.{◌≡◌};
ghost use Rattle.base_run.specs.Prepared.{PreparedAlone, answer_of};
ghost use Rattle.cmd_program.specs.Export.{export_values, walk_exported};

use crate::commands::export::Export;
use base_run::{Ready, Refusal};
use base_shelf::Sink;
use cert_export::export_texts;
use cmd_phases::{Agreed, Refused, wave_of};
use std::alloc::Global;

/// The walk over the places of a job that agrees, and its texts.
pub fn exported<'a, O: Sink>(
    alloc: Global,
    words: &Export<'a>,
    agreed: &Agreed,
    out: &mut O,
) -> Result<Ready<'a>, Refusal<Refused>>
    ensures prepared { PreparedAlone (walk_exported (export_values words.now) agreed.now.parts)
        answer_of result }
    ensures out { O.view out.new ≡ O.view out.old }
{
    let wave = wave_of(alloc, agreed, words.limits, out)?;
    Ok(export_texts(alloc, words.prefix, &wave)?)
}
