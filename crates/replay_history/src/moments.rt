//! The comparison of a recording with the replay: the first fault by moment.
//!
//! The first moment is looked at as a whole. In a later one only what is due is: a register that looks back at a net
//! that is written at its last step, and a bound variable that is recorded in it or has a bit whose net is written in
//! it. The rest is as in the moment before, which has no fault.

ghost use Rattle.std.specs.Prelude.{◌≡◌, ◌+◌, ◌-◌, ◌*◌, ◌<◌, ◌≤◌, ◌^◌, All, IfErr, IfOk, length};
ghost use Rattle.design_circuit.specs.Circuit.{job_in};
ghost use Rattle.design_circuit.specs.Handed.{IsReplay};
ghost use Rattle.recording_binding.specs.Binding.{FitsBinding};
ghost use Rattle.recording_binding.specs.Bounds.{IsOf};
ghost use Rattle.replay_history.specs.Fault.{HasNoFault, IfDiffers, IsFaultIn, IsFaultless, IsFirstFault};
ghost use Rattle.replay_history.specs.Fault.{TellsFaultless, TellsFirst};
ghost use Rattle.replay_history.specs.Follower.{IsAt, IsUpTo};
ghost use Rattle.replay_history.specs.Sides.{AreSides, job_beside};
ghost use Rattle.replay_history.specs.Watched.{AgreeUnlessDue, AreAtRest, AreWatchers};
ghost use Rattle.replay_due.specs.Due.{HasRoomFor};

use crate::differ::{Differ, DifferErr};
use crate::follower::Follower;
use crate::marked::Marked;
use crate::recorded::{check_due_variables, check_recorded};
use crate::settled::{check_due_registers, check_settled};
use crate::sides::Sides;
use crate::watchers::Watchers;
use design_circuit::{Circuit, History};
use recording_binding::Binding;
use recording_reader::Recording;
use std::alloc::Global;

/// The first fault of a recording beside the replay, by moment. In a moment the first unsettled register in the order
/// of the nets comes before the first variable that disagrees, and in it the leftmost bit. Costs what is written and
/// recorded in each moment but the first, where no variable is bound twice and at most 2^20 are bound; a bit that is
/// looked at costs constant time on average. Takes some 60 bytes for each net, each variable of the recording, each pin
/// of a register and each bound bit, and some 20 for each moment and each change of the recording.
pub fn compare(
    alloc: Global,
    circuit: &Circuit<'_>,
    history: &History,
    recording: &Recording,
    bound: &Binding,
) -> Result<(), DifferErr>
    requires history { IsReplay (job_in circuit.now) history.now }
    requires times { recording.now.times ≡ circuit.now.stim.now.times }
    requires bound { FitsBinding circuit.now.design.now bound.now }
    requires recorded { All (IsOf recording.now) bound.now.bound }
    ensures agrees { IfOk result (λ _. IsFaultless (job_in circuit.now) recording.now bound.now) }
    ensures differs { IfErr result (IfDiffers (IsFirstFault (job_in circuit.now) recording.now bound.now)) }
    ensures faultless { TellsFaultless (job_in circuit.now) recording.now bound.now result }
    ensures exact { TellsFirst (job_in circuit.now) recording.now bound.now result }
{
    let sides = Sides {
        circuit: *circuit,
        history,
        recording,
    };
    first_fault(alloc, &sides, bound)
}

fn first_fault(alloc: Global, sides: &Sides<'_>, bound: &Binding) -> Result<(), DifferErr>
    requires sides { AreSides sides.now }
    requires bound { FitsBinding sides.now.circuit.design.now bound.now }
    requires recorded { All (IsOf sides.now.recording.now) bound.now.bound }
    ensures agrees { IfOk result (λ _. IsFaultless (job_beside sides.now) sides.now.recording.now bound.now) }
    ensures differs { IfErr result
        (IfDiffers (IsFirstFault (job_beside sides.now) sides.now.recording.now bound.now)) }
{
    match Watchers::of(alloc, sides, bound)? {
        Some(watchers) => check_changes(alloc, sides, bound, &watchers),
        None => check_moments(alloc, sides, bound),
    }
}

/// The moments, each as a whole.
fn check_moments(alloc: Global, sides: &Sides<'_>, bound: &Binding) -> Result<(), DifferErr>
    requires sides { AreSides sides.now }
    requires bound { FitsBinding sides.now.circuit.design.now bound.now }
    requires recorded { All (IsOf sides.now.recording.now) bound.now.bound }
    ensures agrees { IfOk result (λ _. IsFaultless (job_beside sides.now) sides.now.recording.now bound.now) }
    ensures differs { IfErr result
        (IfDiffers (IsFirstFault (job_beside sides.now) sides.now.recording.now bound.now)) }
{
    let mut follower = Follower::first(alloc, sides)?;
    'moments: for moment in 0..sides.circuit.stim.times.as_slice().len() {
        check_moment(sides, bound, &mut follower, moment as u32)?;
    }
    Ok(())
}

/// The moments, each by what is due in it.
fn check_changes(
    alloc: Global,
    sides: &Sides<'_>,
    bound: &Binding,
    watchers: &Watchers<'_>,
) -> Result<(), DifferErr>
    requires sides { AreSides sides.now }
    requires bound { FitsBinding sides.now.circuit.design.now bound.now }
    requires recorded { All (IsOf sides.now.recording.now) bound.now.bound }
    requires watchers { AreWatchers sides.now bound.now watchers.now }
    ensures agrees { IfOk result (λ _. IsFaultless (job_beside sides.now) sides.now.recording.now bound.now) }
    ensures differs { IfErr result
        (IfDiffers (IsFirstFault (job_beside sides.now) sides.now.recording.now bound.now)) }
{
    let mut marked = Marked::none(alloc, sides, watchers.room)?;
    'moments: for moment in 0..sides.circuit.stim.times.as_slice().len() {
        check_next(sides, bound, watchers, &mut marked, moment as u32)?;
    }
    Ok(())
}

/// A moment after one without a fault, by what is due in it; the first one as a whole.
fn check_next(
    sides: &Sides<'_>,
    bound: &Binding,
    watchers: &Watchers<'_>,
    marked: &mut Marked<'_>,
    moment: u32,
) -> Result<(), Differ>
    requires sides { AreSides sides.now }
    requires bound { FitsBinding sides.now.circuit.design.now bound.now }
    requires recorded { All (IsOf sides.now.recording.now) bound.now.bound }
    requires watchers { AreWatchers sides.now bound.now watchers.now }
    requires moment { moment < (job_beside sides.now).moments }
    requires before { 0 < moment
        → HasNoFault (job_beside sides.now) sides.now.recording.now bound.now (moment - 1) }
    requires follower { IsUpTo sides.now moment marked.old.follower }
    requires registers { HasRoomFor marked.old.registers (job_beside sides.now).width }
    requires variables { HasRoomFor marked.old.variables watchers.now.room }
    ensures follower { IsAt sides.now moment marked.new.follower }
    ensures registers { length marked.new.registers ≡ length marked.old.registers }
    ensures variables { length marked.new.variables ≡ length marked.old.variables }
    ensures none { IfOk result (λ _. HasNoFault (job_beside sides.now) sides.now.recording.now bound.now moment) }
    ensures fault { IfErr result (IsFaultIn (job_beside sides.now) sides.now.recording.now bound.now moment) }
{
    if moment == 0 {
        return check_moment(sides, bound, &mut marked.follower, moment);
    }
    if !marked.mark(sides, watchers, moment) {
        return check_moment(sides, bound, &mut marked.follower, moment);
    }
    check_marked(sides, bound, marked, moment)
}

/// A moment as a whole.
fn check_moment(
    sides: &Sides<'_>,
    bound: &Binding,
    follower: &mut Follower<'_>,
    moment: u32,
) -> Result<(), Differ>
    requires sides { AreSides sides.now }
    requires bound { FitsBinding sides.now.circuit.design.now bound.now }
    requires recorded { All (IsOf sides.now.recording.now) bound.now.bound }
    requires moment { moment < (job_beside sides.now).moments }
    requires follower { IsUpTo sides.now moment follower.old }
    ensures follower { IsAt sides.now moment follower.new }
    ensures none { IfOk result (λ _. HasNoFault (job_beside sides.now) sides.now.recording.now bound.now moment) }
    ensures fault { IfErr result (IsFaultIn (job_beside sides.now) sides.now.recording.now bound.now moment) }
{
    follower.bring(sides, moment);
    check_settled(sides, follower, moment)?;
    check_recorded(sides, follower, bound, moment)
}

/// What is due in a moment.
fn check_marked(
    sides: &Sides<'_>,
    bound: &Binding,
    marked: &mut Marked<'_>,
    moment: u32,
) -> Result<(), Differ>
    requires sides { AreSides sides.now }
    requires bound { FitsBinding sides.now.circuit.design.now bound.now }
    requires recorded { All (IsOf sides.now.recording.now) bound.now.bound }
    requires moment { moment < (job_beside sides.now).moments }
    requires follower { IsUpTo sides.now moment marked.old.follower }
    requires rest { AreAtRest sides.now moment marked.old.registers }
    requires agree { AgreeUnlessDue sides.now bound.now moment marked.old.variables }
    ensures follower { IsAt sides.now moment marked.new.follower }
    ensures registers { marked.new.registers ≡ marked.old.registers }
    ensures variables { marked.new.variables ≡ marked.old.variables }
    ensures none { IfOk result (λ _. HasNoFault (job_beside sides.now) sides.now.recording.now bound.now moment) }
    ensures fault { IfErr result (IsFaultIn (job_beside sides.now) sides.now.recording.now bound.now moment) }
{
    marked.follower.bring(sides, moment);
    check_due_registers(sides, &marked.follower, &marked.registers, moment)?;
    check_due_variables(
        sides,
        &mut marked.follower,
        bound,
        &marked.variables,
        moment,
    )
}
