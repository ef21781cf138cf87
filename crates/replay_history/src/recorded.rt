//! Whether a recording agrees with the replay in a moment.

ghost use Rattle.std.specs.Prelude.{◌≡◌, ◌<◌, All, IfErr, IfOk, length};
ghost use Rattle.recording_binding.specs.Binding.{FitsBinding, FitsBound};
ghost use Rattle.recording_binding.specs.Bounds.{IsOf};
ghost use Rattle.replay_history.specs.Fault.{Agrees, IsBitFault, IsDisagreementIn, IsVariableFault};
ghost use Rattle.replay_history.specs.Follower.{IsAt};
ghost use Rattle.replay_history.specs.Sides.{AgreesBeside, AreSides, BitAgreesBeside, job_beside};
ghost use Rattle.replay_history.specs.Watched.{AgreeUnlessDue};

use crate::differ::Differ;
use crate::follower::Follower;
use crate::held::net_value;
use crate::sides::Sides;
use crate::values::is_same;
use recording_binding::{Binding, Bound};
use replay_due::Due;

/// Whether each bound variable agrees in a moment, else the first bit of the first variable that doesn't. Costs all
/// their bits.
pub fn check_recorded(
    sides: &Sides<'_>,
    follower: &mut Follower<'_>,
    bound: &Binding,
    moment: u32,
) -> Result<(), Differ>
    requires sides { AreSides sides.now }
    requires bound { FitsBinding sides.now.circuit.design.now bound.now }
    requires recorded { All (IsOf sides.now.recording.now) bound.now.bound }
    requires moment { moment < (job_beside sides.now).moments }
    requires follower { IsAt sides.now moment follower.old }
    ensures same { follower.new ≡ follower.old }
    ensures agrees { IfOk result (λ _. Agrees (job_beside sides.now) sides.now.recording.now bound.now moment) }
    ensures fault { IfErr result (IsDisagreementIn (job_beside sides.now) sides.now.recording.now bound.now moment) }
{
    'variables: for variable in bound.bound.as_slice() {
        check_variable(sides, follower, variable, moment)?;
    }
    Ok(())
}

/// The same, where each bound variable that isn't due agrees. Costs the bits of those that are.
pub fn check_due_variables(
    sides: &Sides<'_>,
    follower: &mut Follower<'_>,
    bound: &Binding,
    due: &Due,
    moment: u32,
) -> Result<(), Differ>
    requires sides { AreSides sides.now }
    requires bound { FitsBinding sides.now.circuit.design.now bound.now }
    requires recorded { All (IsOf sides.now.recording.now) bound.now.bound }
    requires moment { moment < (job_beside sides.now).moments }
    requires agree { AgreeUnlessDue sides.now bound.now moment due.now }
    requires follower { IsAt sides.now moment follower.old }
    ensures same { follower.new ≡ follower.old }
    ensures agrees { IfOk result (λ _. Agrees (job_beside sides.now) sides.now.recording.now bound.now moment) }
    ensures fault { IfErr result (IsDisagreementIn (job_beside sides.now) sides.now.recording.now bound.now moment) }
{
    let variables = bound.bound.as_slice();
    let mut number = due.first_from(0);
    'variables: while number < variables.len() {
        check_variable(sides, follower, &variables[number], moment)?;
        number = due.first_from(number + 1);
    }
    Ok(())
}

fn check_variable(
    sides: &Sides<'_>,
    follower: &mut Follower<'_>,
    variable: &Bound,
    moment: u32,
) -> Result<(), Differ>
    requires sides { AreSides sides.now }
    requires bound { FitsBound sides.now.circuit.design.now variable.now }
    requires recorded { IsOf sides.now.recording.now variable.now }
    requires moment { moment < (job_beside sides.now).moments }
    requires follower { IsAt sides.now moment follower.old }
    ensures same { follower.new ≡ follower.old }
    ensures agrees { IfOk result (λ _. AgreesBeside sides.now moment variable.now) }
    ensures fault { IfErr result (IsVariableFault (job_beside sides.now) sides.now.recording.now moment variable.now) }
{
    if variable.bits.as_slice().len() == 1 {
        return check_bit(sides, follower, variable, 0, moment);
    }
    check_bits(sides, follower, variable, moment)
}

fn check_bits(
    sides: &Sides<'_>,
    follower: &mut Follower<'_>,
    variable: &Bound,
    moment: u32,
) -> Result<(), Differ>
    requires sides { AreSides sides.now }
    requires bound { FitsBound sides.now.circuit.design.now variable.now }
    requires recorded { IsOf sides.now.recording.now variable.now }
    requires moment { moment < (job_beside sides.now).moments }
    requires follower { IsAt sides.now moment follower.old }
    ensures same { follower.new ≡ follower.old }
    ensures agrees { IfOk result (λ _. AgreesBeside sides.now moment variable.now) }
    ensures fault { IfErr result (IsVariableFault (job_beside sides.now) sides.now.recording.now moment variable.now) }
{
    'bits: for bit in 0..variable.bits.as_slice().len() as u32 {
        check_bit(sides, follower, variable, bit, moment)?;
    }
    Ok(())
}

fn check_bit(
    sides: &Sides<'_>,
    follower: &mut Follower<'_>,
    variable: &Bound,
    bit: u32,
    moment: u32,
) -> Result<(), Differ>
    requires sides { AreSides sides.now }
    requires bound { FitsBound sides.now.circuit.design.now variable.now }
    requires recorded { IsOf sides.now.recording.now variable.now }
    requires bit { bit < length variable.now.bits }
    requires moment { moment < (job_beside sides.now).moments }
    requires follower { IsAt sides.now moment follower.old }
    ensures same { follower.new ≡ follower.old }
    ensures agrees { IfOk result (λ _. BitAgreesBeside sides.now moment variable.now bit) }
    ensures fault { IfErr result (IsBitFault (job_beside sides.now) sides.now.recording.now moment variable.now bit) }
{
    let net = variable.bits.as_slice()[bit as usize];
    let recorded = follower.recorded.value(variable.variable, bit, moment);
    let replayed = net_value(&sides.circuit, &follower.row, net);
    if is_same(recorded, replayed) {
        return Ok(());
    }
    Err(Differ::Disagrees {
        variable: variable.variable,
        bit,
        moment,
        recorded,
        replayed,
    })
}
