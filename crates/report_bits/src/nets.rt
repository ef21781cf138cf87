//! The nets of the bits of bound variables, and which bits have which net.

ghost use Rattle.std.specs.Prelude.{◌≡◌, ℕ, ◌<◌, ◌≤◌, ◌^◌, All, IfOk, IfSome, length};
ghost use Rattle.recording_binding.specs.Binding.{FitsBinding};
ghost use Rattle.report_bits.specs.Marked.{AreBitNets, AreReadingsOf, bit_nets};

use base_lists::Memory;
use design_circuit::Design;
use recording_binding::{Binding, Bound};
use replay_due::{Readers, Reading};
use std::alloc::Global;

const MOST_BITS: usize = 1 << 20;

/// The nets of the bits of bound variables, in the order of a report, and for each net the numbers of the bits that
/// have it. No net and no such number is as great as `room`.
#[derive(Drop)]
pub struct BitNets {
    pub room: usize,
    pub nets: Vec<u32>,
    pub readers: Readers,
}

impl BitNets {
    /// Those of a binding; none where there are more than 2^20 bits. Takes 8 bytes for each net, or for each bit where
    /// there are more of these, and 8 for each bit; on the way 24 more for each.
    pub fn of(alloc: Global, design: &Design, bound: &Binding) -> Result<Option<BitNets>, Memory>
        requires nets { length design.now.nets ≤ 2 ^ 20 }
        requires bound { FitsBinding design.now bound.now }
        ensures nets { IfOk result (λ found. IfSome found (λ bits. bits.nets.items ≡ bit_nets bound.now.bound)) }
        ensures are { IfOk result (λ found. IfSome found (AreBitNets (length design.now.nets))) }
    {
        let Some(nets) = nets_of(alloc, bound.bound.as_slice())? else {
            return Ok(None);
        };
        let room = design.nets.as_slice().len().max(nets.len());
        let readings = readings_of(alloc, nets.as_slice())?;
        let readers = Readers::new(alloc, room, readings.as_slice())?;
        Ok(Some(BitNets {
            room,
            nets,
            readers,
        }))
    }
}

/// The nets of the bits, where these aren't too many.
fn nets_of(alloc: Global, bound: &[Bound]) -> Result<Option<Vec<u32>>, Memory>
    ensures nets { IfOk result (λ found. IfSome found (λ nets. nets.items ≡ bit_nets bound.now)) }
    ensures few { IfOk result (λ found. IfSome found (λ nets. length nets.items ≤ 2 ^ 20)) }
{
    let mut nets = Vec::new(alloc);
    'variables: for variable in bound {
        let bits = variable.bits.as_slice();
        if bits.len() > MOST_BITS - nets.len() {
            return Ok(None);
        }
        nets.extend_from_slice(bits)?;
    }
    Ok(Some(nets))
}

/// Which bit reads which net.
fn readings_of(alloc: Global, nets: &[u32]) -> Result<Vec<Reading>, Memory>
    requires { length nets.now ≤ 2 ^ 20 }
    ensures { IfOk result (λ readings. AreReadingsOf nets.now readings.items) }
{
    let mut readings = Vec::new(alloc);
    'bits: for (number, net) in nets.iter().enumerate() {
        readings.push(Reading {
            net: *net,
            position: number as u32,
        })?;
    }
    Ok(readings)
}
