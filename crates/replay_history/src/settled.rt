//! Whether a moment has come to rest.

ghost use Rattle.std.specs.Prelude.{◌≡◌, ◌<◌, IfErr, IfOk, slice_index};
ghost use Rattle.design_circuit.specs.Settled.{IsSettled};
ghost use Rattle.replay_history.specs.Fault.{IsUnsettledAt, IsUnsettledIn};
ghost use Rattle.replay_history.specs.Follower.{IsAt};
ghost use Rattle.replay_history.specs.Sides.{AreSides, SettlesIn, job_beside};
ghost use Rattle.replay_history.specs.Watched.{AreAtRest};

use crate::differ::Differ;
use crate::follower::{Follower, ShownAlong};
use crate::held::net_kept;
use crate::sides::Sides;
use design_circuit::{Driver, Latching, driver_at, updated_value, width_of};
use replay_due::Due;

/// Whether each register is settled at the last step of a moment, else the first in the order of the nets that isn't.
pub fn check_settled(sides: &Sides<'_>, follower: &Follower<'_>, moment: u32) -> Result<(), Differ>
    requires sides { AreSides sides.now }
    requires moment { moment < (job_beside sides.now).moments }
    requires follower { IsAt sides.now moment follower.now }
    ensures settled { IfOk result (λ _. IsSettled (job_beside sides.now) moment) }
    ensures fault { IfErr result (IsUnsettledIn (job_beside sides.now) moment) }
{
    'positions: for position in 0..sides.circuit.design.nets.as_slice().len() {
        let net = net_at(sides, position as u32);
        check_net(sides, follower, moment, net)?;
    }
    Ok(())
}

/// The same, where each register that isn't due is settled. Costs the registers that are.
pub fn check_due_registers(
    sides: &Sides<'_>,
    follower: &Follower<'_>,
    due: &Due,
    moment: u32,
) -> Result<(), Differ>
    requires sides { AreSides sides.now }
    requires moment { moment < (job_beside sides.now).moments }
    requires rest { AreAtRest sides.now moment due.now }
    requires follower { IsAt sides.now moment follower.now }
    ensures settled { IfOk result (λ _. IsSettled (job_beside sides.now) moment) }
    ensures fault { IfErr result (IsUnsettledIn (job_beside sides.now) moment) }
{
    let nets = width_of(&sides.circuit);
    let mut position = due.first_from(0);
    'positions: while position < nets {
        let net = net_at(sides, position as u32);
        check_net(sides, follower, moment, net)?;
        position = due.first_from(position + 1);
    }
    Ok(())
}

/// The net at a position of the order.
fn net_at(sides: &Sides<'_>, position: u32) -> u32
    requires sides { AreSides sides.now }
    requires position { position < (job_beside sides.now).width }
    ensures { result ≡ slice_index (job_beside sides.now).order position }
{
    sides.circuit.order.net(position)
}

fn check_net(
    sides: &Sides<'_>,
    follower: &Follower<'_>,
    moment: u32,
    net: u32,
) -> Result<(), Differ>
    requires sides { AreSides sides.now }
    requires moment { moment < (job_beside sides.now).moments }
    requires net { net < (job_beside sides.now).width }
    requires follower { IsAt sides.now moment follower.now }
    ensures settled { IfOk result (λ _. SettlesIn sides.now moment net ((job_beside sides.now).driver net)) }
    ensures fault { IfErr result (IsUnsettledAt (job_beside sides.now) moment net ((job_beside sides.now).driver net)) }
{
    match driver_at(&sides.circuit, net as usize) {
        Driver::Register(latching) => check_register(sides, follower, moment, net, latching),
        _ => Ok(()),
    }
}

fn check_register(
    sides: &Sides<'_>,
    follower: &Follower<'_>,
    moment: u32,
    net: u32,
    latching: &Latching,
) -> Result<(), Differ>
    requires sides { AreSides sides.now }
    requires moment { moment < (job_beside sides.now).moments }
    requires net { net < (job_beside sides.now).width }
    requires register { (job_beside sides.now).driver net ≡ Driver.Register latching.now }
    requires follower { IsAt sides.now moment follower.now }
    ensures settled { IfOk result (λ _. SettlesIn sides.now moment net (Driver.Register latching.now)) }
    ensures fault { IfErr result (IsUnsettledAt (job_beside sides.now) moment net (Driver.Register latching.now)) }
{
    let step = follower.row.step();
    let kept = net_kept(&sides.circuit, &follower.row, net);
    let shown = ShownAlong {
        circuit: sides.circuit,
        follower,
    };
    let next = updated_value(&sides.circuit, &shown, kept, step + 1, latching);
    if next == kept {
        return Ok(());
    }
    Err(Differ::Unsettled {
        net,
        moment,
        kept,
        next,
    })
}
