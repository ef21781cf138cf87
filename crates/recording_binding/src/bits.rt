//! The bits of a variable whose name some nets have.

ghost use Rattle.std.specs.Prelude.{◌≡◌, ◌<◌, ◌≤◌, All, IfOk, length, take};
ghost use Rattle.recording_binding.specs.Naming.{index_of};
ghost use Rattle.recording_binding.specs.Bits as spec;

use crate::net_numbers::NetNumbers;
use base_lists::Memory;
use design_circuit::Design;
use std::alloc::Global;

/// What a variable comes to.
#[derive(Drop)]
pub enum Matched {
    /// No net has a name that it tells.
    Nothing,
    /// Its width or its range isn't that of the nets that it names.
    Differs,
    /// The nets that are its bits, from the left.
    Bits(NetNumbers),
}

/// What a variable of this range and width comes to, where these nets have its name.
pub fn match_nets(
    alloc: Global,
    design: &Design,
    nets: &[u32],
    range: Option<(u32, u32)>,
    width: u32,
) -> Result<Matched, Memory>
    requires nets { All (λ net. net < length design.now.nets) nets.now }
    requires apart { spec.AreApart design.now nets.now }
    requires wide { 1 ≤ width }
    ensures { IfOk result (λ m. m ≡ spec.matched_by design.now nets.now range width) }
{
    if nets.is_empty() {
        return Ok(Matched::Nothing);
    }
    match range {
        None => match_whole(alloc, nets, width),
        Some((m, l)) => match_part(alloc, design, nets, m, l, width),
    }
}

fn match_whole(alloc: Global, nets: &[u32], width: u32) -> Result<Matched, Memory>
    ensures { IfOk result (λ m. m ≡ spec.whole_of nets.now width) }
{
    if nets.len() == width as usize {
        Ok(Matched::Bits(NetNumbers::from_vec(nets.to_vec(alloc)?)))
    } else {
        Ok(Matched::Differs)
    }
}

fn match_part(
    alloc: Global,
    design: &Design,
    nets: &[u32],
    m: u32,
    l: u32,
    width: u32,
) -> Result<Matched, Memory>
    requires nets { All (λ net. net < length design.now.nets) nets.now }
    requires apart { spec.AreApart design.now nets.now }
    requires wide { 1 ≤ width }
    ensures { IfOk result (λ found. found ≡ spec.part_of design.now nets.now m l width) }
{
    let bits = front_of(rest_from(design, nets, m), width as usize);
    if ends_at(design, l, width, bits) {
        Ok(Matched::Bits(NetNumbers::from_vec(bits.to_vec(alloc)?)))
    } else {
        Ok(Matched::Differs)
    }
}

/// The nets from the one of this index on.
fn rest_from<'n>(design: &Design, nets: &'n [u32], index: u32) -> &'n [u32]
    requires nets { All (λ net. net < length design.now.nets) nets.now }
    requires apart { spec.AreApart design.now nets.now }
    ensures is { result.now ≡ spec.from_index design.now index nets.now }
    ensures nets { All (λ net. net < length design.now.nets) result.now }
{
    let guess = guessed_place(design, nets, index);
    if guess < nets.len() && has_index(design, index, nets[guess]) {
        return &nets[guess..];
    }
    scanned_from(design, nets, index)
}

/// Where the net of an index stands if the indexes of the nets go up or down by one, as those of a declared vector do.
fn guessed_place(design: &Design, nets: &[u32], index: u32) -> usize
    requires { All (λ net. net < length design.now.nets) nets.now }
{
    match nets.first() {
        Some(net) => match index_of(design, *net) {
            Some(first) if first <= index => (index - first) as usize,
            Some(first) => (first - index) as usize,
            None => 0,
        },
        None => 0,
    }
}

fn scanned_from<'n>(design: &Design, nets: &'n [u32], index: u32) -> &'n [u32]
    requires { All (λ net. net < length design.now.nets) nets.now }
    ensures is { result.now ≡ spec.from_index design.now index nets.now }
    ensures nets { All (λ net. net < length design.now.nets) result.now }
{
    let mut rest = nets;
    'nets: while let [net, after @ ..] = rest {
        if has_index(design, index, *net) {
            return rest;
        }
        rest = after;
    }
    rest
}

/// At most so many nets from the front.
fn front_of(nets: &[u32], count: usize) -> &[u32]
    ensures { result.now ≡ take count nets.now }
{
    if count < nets.len() {
        &nets[..count]
    } else {
        nets
    }
}

fn ends_at(design: &Design, index: u32, width: u32, bits: &[u32]) -> bool
    requires nets { All (λ net. net < length design.now.nets) bits.now }
    requires wide { 1 ≤ width }
    ensures { result ≡ spec.ends_at design.now index width bits.now }
{
    bits.len() == width as usize && has_index(design, index, bits[width as usize - 1])
}

fn has_index(design: &Design, index: u32, net: u32) -> bool
    requires { net < length design.now.nets }
    ensures { result ≡ spec.has_index design.now index net }
{
    match index_of(design, net) {
        None => false,
        Some(own) => own == index,
    }
}

/// The index of a net of a vector.
pub fn index_of(design: &Design, net: u32) -> Option<u32>
    requires { net < length design.now.nets }
    ensures { result ≡ index_of design.now net }
{
    design.nets.as_slice()[net as usize].path.bit
}
