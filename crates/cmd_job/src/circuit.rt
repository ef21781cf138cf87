//! The circuit of a job.

ghost use Rattle.std.specs.Prelude.{◌≡◌};
ghost use Rattle.design_circuit.specs.Circuit.{job_in};
ghost use Rattle.cmd_job.specs.Compared.{job_for};
ghost use Rattle.cmd_job.specs.Netlist.{FitsNetlist};
ghost use Rattle.cmd_job.specs.Recorded.{FitsRecorded};

use crate::netlist::Netlist;
use crate::recorded::Recorded;
use design_circuit::Circuit;

/// The design of a netlist with its order, and the stimulus of a recording.
pub fn circuit_of<'a>(netlist: &'a Netlist, recorded: &'a Recorded) -> Circuit<'a>
    requires netlist { FitsNetlist netlist.now }
    requires recorded { FitsRecorded netlist.now.design recorded.now }
    ensures design { result.design.now ≡ netlist.now.design }
    ensures order { result.order.now ≡ netlist.now.order }
    ensures stim { result.stim.now ≡ recorded.now.stim }
    ensures job { job_in result ≡ job_for netlist.now recorded.now }
{
    Circuit {
        design: &netlist.design,
        order: &netlist.order,
        stim: &recorded.stim,
    }
}
