//! What each position of an order copies.

ghost use Rattle.std.specs.Prelude.{◌≡◌, ◌<◌, IfOk, length, slice_index};
ghost use Rattle.design_circuit.specs.Circuit.{job_in};
ghost use Rattle.wave_bytes.specs.Roots.{AreRootsTo, IsRootBehind};

use base_lists::Memory;
use design_circuit::{Circuit, Driver, driver_at, width_of};
use std::alloc::Global;

/// What each position of a circuit copies: what the position of the net copies that its driver copies, or itself. Takes
/// four bytes for each.
pub fn roots_of(alloc: Global, circuit: &Circuit<'_>) -> Result<Vec<u32>, Memory>
    ensures { IfOk result (λ roots. AreRootsTo (job_in circuit.now) (job_in circuit.now).width roots.items) }
{
    let width = width_of(circuit);
    let mut roots = Vec::with_capacity(alloc, width)?;
    'positions: for position in 0..width {
        let root = root_behind(circuit, roots.as_slice(), position as u32);
        roots.push(root)?;
    }
    Ok(roots)
}

/// That of a position, given those of the positions before it.
fn root_behind(circuit: &Circuit<'_>, roots: &[u32], position: u32) -> u32
    requires roots { AreRootsTo (job_in circuit.now) position roots.now }
    requires position { position < (job_in circuit.now).width }
    ensures { IsRootBehind (job_in circuit.now) roots.now position result }
{
    let net = circuit.order.net(position);
    match driver_at(circuit, net as usize) {
        Driver::Copy(copied) => roots[circuit.order.position(*copied) as usize],
        Driver::Input => position,
        Driver::Undriven => position,
        Driver::Constant(_) => position,
        Driver::Cell(_, _) => position,
        Driver::Register(_) => position,
    }
}
