//! The recording of a made job.

ghost use Rattle.std.specs.Prelude.{IfOk, length};
ghost use Rattle.design_circuit.specs.Design.{FitsDesign};
ghost use Rattle.design_circuit.specs.Job.{driver_in};
ghost use Rattle.design_circuit.specs.Order.{IsOrder};
ghost use Rattle.cmd_make.specs.Recording as spec;

use crate::bound::made_binding;
use crate::stimulus::made_stim;
use base_lists::Memory;
use design_circuit::{Circuit, Design, Forces, Order};
use recording_writer::vcd_text;
use replay_history::replay;
use std::alloc::Global;

/// The recording of a design that a number and a number of gates stand for: what the replay shows at 16 moments, over
/// all nets, in the scope `made`. Net 0 is the clock and nets 1 to 8 are the inputs, as they are in a made netlist.
///
/// The moments stand at 0, 10, .., 150, in ticks without a timescale, and have 4 rounds. Draws that the netlist of that
/// many gates makes come before those of the inputs.
///
/// Takes the text's bytes, and while it runs a byte for each place, some 250 for each net and 30 for each pin.
pub fn made_recording(
    alloc: Global,
    design: &Design,
    order: &Order,
    number: u64,
    gates: u32,
) -> Result<Vec<u8>, Memory>
    requires design { FitsDesign design.now }
    requires order { IsOrder (driver_in design.now) (length design.now.nets) order.now }
    ensures { IfOk result (λ text. spec.IsMadeRecording design.now order.now number gates text.items) }
{
    let stim = made_stim(alloc, design, number, gates)?;
    let circuit = Circuit {
        design,
        order,
        stim: &stim,
    };
    let forces = Forces::empty(alloc);
    let history = replay(alloc, &circuit, &forces)?;
    let binding = made_binding(alloc, design)?;
    let text = vcd_text(alloc, design, &binding, &stim, &history)?;
    Ok(text)
}
