//! All nets of a design as the variables of a recording.

ghost use Rattle.std.specs.Prelude.{◌≡◌, ◌<◌, ◌≤◌, ◌^◌, [], ◌∷◌, IfOk, codes, length};
ghost use Rattle.recording_binding.specs.Bounds.{ends_of};
ghost use Rattle.cmd_make.specs.Recording as spec;

use base_lists::{Items, Memory};
use design_circuit::{Bytes, Design};
use recording_binding::{Binding, Bound, NetNumbers};
use std::alloc::Global;

/// Each net as a variable of its own, in number order. Takes some 150 bytes for each.
pub fn made_binding(alloc: Global, design: &Design) -> Result<Binding, Memory>
    requires { length design.now.nets ≤ 2 ^ 20 }
    ensures { IfOk result (λ binding. binding ≡ spec.made_binding design.now) }
{
    let mut bound = Vec::new(alloc);
    'nets: for net in 0..design.nets.as_slice().len() as u32 {
        bound.push(net_bound(alloc, design, net)?)?;
    }
    Ok(Binding {
        timescale: None,
        bound: Items::from_vec(bound),
    })
}

/// The variable of a net.
fn net_bound(alloc: Global, design: &Design, net: u32) -> Result<Bound, Memory>
    requires { net < length design.now.nets }
    ensures { IfOk result (λ bound. bound ≡ spec.net_bound design.now net) }
{
    let bits = vec![in alloc; net; 1]?;
    Ok(Bound {
        variable: net,
        bits: NetNumbers::from_vec(bits),
        path: made_path(alloc)?,
        range: range_of(design, net),
    })
}

/// The path of the scope.
fn made_path(alloc: Global) -> Result<Items<Bytes>, Memory>
    ensures { IfOk result (λ path. path ≡ codes "made" ∷ []) }
{
    let mut path = Vec::new(alloc);
    path.push(Items::from_vec(Vec::from_slice(alloc, b"made")?))?;
    Ok(Items::from_vec(path))
}

/// The index of a net of a vector, as a range; none for a scalar net.
fn range_of(design: &Design, net: u32) -> Option<(u32, u32)>
    requires { net < length design.now.nets }
    ensures { result ≡ ends_of design.now (net ∷ []) }
{
    match design.nets.as_slice()[net as usize].path.bit {
        Some(index) => Some((index, index)),
        None => None,
    }
}
