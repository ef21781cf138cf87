//! The nets of a design by their names: a map from keys, each built once a net.

ghost use Rattle.std.specs.Prelude.{◌≡◌, ◌<◌, ◌≤◌, [], ◌∷◌, ◌++◌, OnOk, IfOk, map};
ghost use Rattle.design_circuit.specs.declared.name.NamePart.{NamePart as Part};
ghost use Rattle.recording_binding.specs.Keys.{AddsNet, key_of, is_solid};

use base_lists::Memory;
use design_circuit::{Design, NamePart};
use indexmap::IndexMap;
use std::alloc::Global;
use std::marker::Model;

/// The nets of a design, to be found by the key of a name. A name takes its key and 4 bytes for each net.
#[derive(Drop)]
pub struct Names<'a> {
    design: &'a Design,
    lists: IndexMap<Vec<u8>, Vec<u32>>,
    longest: usize,
}

impl<'a> Model for Names<'a> {
    ghost use Rattle.design_circuit.specs.declared.design.Design.{Design};
    ghost use Rattle.recording_binding.specs.Keys.{ListsAll};

    ghost Value = { Design };

    ghost view = { λ n. n.design.now };

    ghost invariant = { λ n. ListsAll n.lists.entries n.longest n.design.now };
}

impl<'a> Names<'a> {
    ghost use Rattle.std.specs.Prelude.{◌≡◌, ◌<◌, ◌≤◌, ◌^◌, [], IfOk, All, length};
    ghost use Rattle.design_circuit.specs.Design.{FitsDesign};
    ghost use Rattle.recording_binding.specs.Keys.{IsKey, key_of};
    ghost use Rattle.recording_binding.specs.Naming.{Texts, nets_of};
    ghost use Rattle.recording_binding.specs.Bits.{AreApart};

    /// The names of a design.
    pub fn new(alloc: Global, design: &'a Design) -> Result<Names<'a>, Memory>
        requires { FitsDesign design.now }
        ensures { IfOk result (λ names. names ≡ design.now) }
    {
        let mut lists = IndexMap::new(alloc);
        let mut longest = 0;
        'nets: for (number, net) in design.nets.as_slice().iter().enumerate() {
            let key = key_of(alloc, net.path.parts.as_slice())?;
            longest = greater(longest, key.len());
            add_net(alloc, &mut lists, key, number as u32)?;
        }
        Ok(Names {
            design,
            lists,
            longest,
        })
    }

    /// The design.
    pub fn design(&self) -> &'a Design
        ensures is { result.now ≡ self.now }
        ensures fits { FitsDesign self.now }
    {
        self.design
    }

    /// The nets of the name with this key, in number order.
    pub fn nets(&self, key: &[u8]) -> &[u32]
        ensures named { (name : Texts) → IsKey name key.now → result.now ≡ nets_of self.now name }
        ensures within { All (λ net. net < length self.now.nets) result.now }
        ensures apart { AreApart self.now result.now }
    {
        match self.lists.get(key) {
            Some(nets) => nets.as_slice(),
            None => &[],
        }
    }

    /// The length of the longest key of a net.
    pub fn longest(&self) -> usize
        ensures { (name : Texts) → result < length (key_of name) → nets_of self.now name ≡ [] }
    {
        self.longest
    }
}

fn greater(a: usize, b: usize) -> usize
    ensures first { a ≤ result }
    ensures second { b ≤ result }
{
    if a < b { b } else { a }
}

/// The key of a name: each text with a space behind it.
fn key_of(alloc: Global, parts: &[NamePart]) -> Result<Vec<u8>, Memory>
    ensures { IfOk result (λ key. key.items ≡ key_of (map (λ (part : Part). part.text) parts.now)) }
{
    let mut key = Vec::new(alloc);
    let mut rest = parts;
    'parts: while let [part, after @ ..] = rest {
        put_text(&mut key, part.text.as_slice())?;
        rest = after;
    }
    Ok(key)
}

/// Puts a text with a space behind it.
pub fn put_text(key: &mut Vec<u8>, text: &[u8]) -> Result<(), Memory>
    ensures { OnOk result (key.new.items ≡ key.old.items ++ text.now ++ 32 ∷ []) }
{
    key.extend_from_slice(text)?;
    key.push(b' ')?;
    Ok(())
}

/// Whether a text has no space.
pub fn is_solid(text: &[u8]) -> bool
    ensures { result ≡ is_solid text.now }
{
    text.iter().all(|b| *b != b' ')
}

/// Puts a net behind those of its key.
fn add_net(
    alloc: Global,
    lists: &mut IndexMap<Vec<u8>, Vec<u32>>,
    key: Vec<u8>,
    net: u32,
) -> Result<(), Memory>
    ensures { OnOk result (AddsNet lists.old.entries lists.new.entries key.items net) }
{
    match lists.get_mut(key.as_slice()) {
        Some(nets) => {
            nets.push(net)?;
            Ok(())
        }
        None => {
            let nets = one_net(alloc, net)?;
            lists.insert(key, nets)?;
            Ok(())
        }
    }
}

fn one_net(alloc: Global, net: u32) -> Result<Vec<u32>, Memory>
    ensures { IfOk result (λ nets. nets.items ≡ net ∷ []) }
{
    let mut nets = Vec::new(alloc);
    nets.push(net)?;
    Ok(nets)
}
