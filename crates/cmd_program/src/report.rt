//! The report of a wave, with the lines of conditions.

ghost use Rattle.std.specs.Prelude.{◌≡◌, ◌++◌, IfOk};
ghost use Rattle.std.specs.List.{AllByRecursion};
ghost use Rattle.cmd_phases.specs.OfListing.{IsSomeCondition, conditions_text};
ghost use Rattle.recording_binding.specs.Binding.{FitsBinding};
ghost use Rattle.report_bits.specs.Report.{report_text};
ghost use Rattle.wave_proved.specs.Contents.{IsFinished};

use base_lists::Memory;
use cmd_phases::{Condition, put_conditions};
use design_circuit::Forces;
use recording_binding::Binding;
use report_bits::{ReportLines, write_report};
use std::alloc::Global;
use wave_proved::Wave;

/// The report of a finished wave, and behind it the lines of conditions of its places.
pub fn report_with(
    alloc: Global,
    wave: &Wave<'_>,
    binding: &Binding,
    lines: ReportLines,
    forces: &Forces,
    conditions: &[Condition],
) -> Result<Vec<u8>, Memory>
    requires finished { IsFinished wave.now }
    requires binding { FitsBinding wave.now.design binding.now }
    requires conditions { AllByRecursion (IsSomeCondition wave.now) conditions.now }
    ensures { IfOk result (λ text. text.items
        ≡ report_text wave.now binding.now lines forces.now ++ conditions_text wave.now conditions.now) }
{
    let mut text = write_report(alloc, wave, binding, lines, forces)?;
    put_conditions(alloc, &mut text, wave, conditions)?;
    Ok(text)
}
