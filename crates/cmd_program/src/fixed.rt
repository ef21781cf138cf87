//! A job repaired twice, under the recorded starts and under set ones, and what that makes known.

ghost use Rattle.std.specs.Prelude.{◌≡◌, IfOk};
ghost use Rattle.report_fix.specs.Gained.{AreBeside};
ghost use Rattle.recording_binding.specs.Binding.{FitsBinding};
ghost use Rattle.base_run.specs.Prepared.{PreparedAlone, answer_of};
ghost use Rattle.cmd_program.specs.Fix.{fix_values, fix_answer, set_phases, walk_fixed, walk_set};
ghost use Rattle.cmd_phases.specs.Repair.{IsRepairedBy};
ghost use Rattle.cmd_program.specs.Restarts.{IsRestarted};

use crate::checked::ready_with;
use crate::commands::fix::Fix;
use crate::restarted::Restarted;
use base_lists::Memory;
use base_run::{Ready, Refusal, Report};
use base_shelf::Sink;
use cmd_phases::{Agreed, Refused, fix_text, replay_of, replay_wave, sets_of, started};
use std::alloc::Global;
use wave_proved::Wave;

/// A job that agrees, with the starts that the words set.
pub fn fixed<'a, O: Sink>(
    alloc: Global,
    words: &Fix<'_>,
    agreed: &Agreed,
    out: &mut O,
) -> Result<Ready<'a>, Refusal<Refused>>
    ensures prepared { PreparedAlone (set_phases (fix_values words.now) agreed.now.parts)
        answer_of result }
    ensures out { O.view out.new ≡ O.view out.old }
{
    let parts = &agreed.parts;
    let sets = sets_of(alloc, words.sets)?;
    let stim = started(alloc, &parts.netlist, &parts.recorded.stim, sets.as_slice())?;
    let set = Restarted {
        words: *words,
        agreed,
        stim: &stim,
        registers: sets.len(),
    };
    walked(alloc, &set, out)
}

/// The walk under the recorded starts, and then that under the set ones.
#[tactic(auto, using(cmd_phases::proofs::Jobs::circuit_fits))]
fn walked<'a, O: Sink>(
    alloc: Global,
    set: &Restarted<'_>,
    out: &mut O,
) -> Result<Ready<'a>, Refusal<Refused>>
    requires set { IsRestarted set.now }
    ensures prepared { PreparedAlone (walk_fixed (fix_values set.now.words) set.now.agreed.now.parts.netlist
        set.now.agreed.now.parts.recorded set.now.stim.now) answer_of result }
    ensures out { O.view out.new ≡ O.view out.old }
{
    let netlist = &set.agreed.parts.netlist;
    let stim = &set.agreed.parts.recorded.stim;
    let history = &set.agreed.history;
    let before = replay_wave(alloc, netlist, stim, history, set.words.limits, out)?;
    walked_set(alloc, set, &before, out)
}

/// The walk under the set starts, over a replay of its own, and what both come to.
fn walked_set<'a, O: Sink>(
    alloc: Global,
    set: &Restarted<'_>,
    before: &Wave<'_>,
    out: &mut O,
) -> Result<Ready<'a>, Refusal<Refused>>
    requires set { IsRestarted set.now }
    requires before { IsRepairedBy set.now.words.limits set.now.agreed.now.parts.netlist
        set.now.agreed.now.parts.recorded.stim set.now.agreed.now.history before.now }
    ensures prepared { PreparedAlone (walk_set (fix_values set.now.words) set.now.agreed.now.parts.netlist
        set.now.agreed.now.parts.recorded set.now.stim.now before.now) answer_of result }
    ensures out { O.view out.new ≡ O.view out.old }
{
    let netlist = &set.agreed.parts.netlist;
    let history = replay_of(alloc, netlist, set.stim)?;
    let after = replay_wave(alloc, netlist, set.stim, &history, set.words.limits, out)?;
    Ok(listed(alloc, set, before, &after)?)
}

/// What is gained and lost from one finished wave to the other.
fn listed<'a>(
    alloc: Global,
    set: &Restarted<'_>,
    before: &Wave<'_>,
    after: &Wave<'_>,
) -> Result<Ready<'a>, Memory>
    requires set { IsRestarted set.now }
    requires waves { AreBeside before.now after.now }
    requires binding { FitsBinding before.now.design set.now.agreed.now.parts.recorded.binding }
    ensures { IfOk result (λ ready. answer_of ready
        ≡ fix_answer (fix_values set.now.words) set.now.agreed.now.parts.recorded before.now after.now) }
{
    let binding = &set.agreed.parts.recorded.binding;
    let text = fix_text(alloc, set.registers, before, after, binding)?;
    Ok(ready_with(alloc, Report::new(alloc, text)?))
}
