//! The nets that nets copy in the end.

ghost use Rattle.std.specs.Prelude.{◌≡◌, ◌<◌, IfOk, length};
ghost use Rattle.design_circuit.specs.Design.{FitsDesign};
ghost use Rattle.design_circuit.specs.Job.{driver_in};
ghost use Rattle.design_circuit.specs.Order.{IsOrder};
ghost use Rattle.recording_binding.specs.Originals.{AreOriginals, copied_of, listed_original};

use base_lists::Memory;
use design_circuit::{Design, Driver, Order};
use std::alloc::Global;

/// For each net of a design its original. Takes four bytes for each.
pub fn originals_of(alloc: Global, design: &Design, order: &Order) -> Result<Vec<u32>, Memory>
    requires design { FitsDesign design.now }
    requires order { IsOrder (driver_in design.now) (length design.now.nets) order.now }
    ensures { IfOk result (λ originals. AreOriginals design.now originals.items) }
{
    let count = design.nets.as_slice().len();
    let mut originals = vec![in alloc; 0; count]?;
    'positions: for position in 0..count as u32 {
        let net = order.net(position);
        let original = original_by(design, originals.as_slice(), net);
        originals[net as usize] = original;
    }
    Ok(originals)
}

/// The original of a net, where those of the nets before it are known.
fn original_by(design: &Design, originals: &[u32], net: u32) -> u32
    requires net { net < length design.now.nets }
    requires known { copied_of design.now net < length originals.now }
    ensures { result ≡ listed_original originals.now net (driver_in design.now net) }
{
    match &design.nets.as_slice()[net as usize].driver {
        Driver::Copy(argument) => originals[*argument as usize],
        _ => net,
    }
}
