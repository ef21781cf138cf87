//! Stubs in a text.

ghost use Rattle.std.specs.Prelude.{◌≡◌, Err, IfErr, IfOk, Ok, drop, map, option_map, slice_range};
ghost use Rattle.netlist_trim.specs.Shown.{seen};
ghost use Rattle.netlist_stub.specs.Known.{texts_of};
ghost use Rattle.netlist_stub_read.specs.Modules.{IsHeld};
ghost use Rattle.netlist_stub.specs.Stubs as spec;
ghost use Rattle.netlist_stub.specs.declared.fault.StubFault.TheVariants.{Text};
ghost use Rattle.netlist_trim.specs.declared.fault.TrimFault.TheVariants.{NoTop};

use crate::fault::{StubErr, StubFault};
use crate::known::{is_among, known_of};
use crate::listed::Listed;
use crate::text::put_stub;
use base_lists::{Items, put};
use netlist_stub_read::{Module, read_modules};
use netlist_trim::{Reader, Spelled, TrimFault};
use std::alloc::Global;

/// A text with a stub in place of each definition of a module that has one of the names. An inout port that is among
/// the supplies is an input of the stub. Time and memory are in proportion to the text, time also to how many names
/// there are.
pub fn stub(
    alloc: Global,
    text: &[u8],
    names: &[&[u8]],
    supplies: &[&[u8]],
) -> Result<Vec<u8>, StubErr>
    ensures stubbed { IfOk result
        (λ out. spec.StubComes text.now (texts_of names.now) (texts_of supplies.now) (Ok out.items)) }
    ensures refused { IfErr result (spec.IfStubRefused
        (λ fault. spec.StubComes text.now (texts_of names.now) (texts_of supplies.now) (Err fault))) }
{
    match modules_of(alloc, text) {
        Ok(modules) => text_of(alloc, text, names, supplies, modules.as_slice()),
        Err(fault) => Err(fault),
    }
}

/// What a text defines.
fn modules_of<'t>(alloc: Global, text: &'t [u8]) -> Result<Vec<Module<'t>>, StubErr>
    ensures held { IfOk result (λ modules. IsHeld text.now modules.items) }
    ensures refused { IfErr result (spec.IfStubRefused (spec.IsUnheld text.now)) }
{
    let mut tokens = Reader::new(text);
    Ok(read_modules(alloc, &mut tokens)?)
}

/// What a text with these modules comes to.
fn text_of(
    alloc: Global,
    text: &[u8],
    names: &[&[u8]],
    supplies: &[&[u8]],
    modules: &[Module<'_>],
) -> Result<Vec<u8>, StubErr>
    ensures { spec.Answers (spec.text_of text.now (texts_of names.now) (texts_of supplies.now) modules.now
        (spec.missing modules.now (texts_of names.now))) result }
{
    match missing(modules, names) {
        Some(name) => Err(no_module(alloc, name)),
        None => stubbed(alloc, text, names, supplies, modules),
    }
}

/// The text with stubs.
fn stubbed(
    alloc: Global,
    text: &[u8],
    names: &[&[u8]],
    supplies: &[&[u8]],
    modules: &[Module<'_>],
) -> Result<Vec<u8>, StubErr>
    ensures { spec.Answers (spec.stubbed text.now (texts_of names.now) (texts_of supplies.now) 0 modules.now) result }
{
    let mut out = Vec::new(alloc);
    let mut at = 0;
    let mut rest = modules;
    'modules: while let [module, after @ ..] = rest {
        if is_stubbed(names, module) {
            put_piece(alloc, text, supplies, at, module, &mut out)?;
            at = module.end();
        }
        rest = after;
    }
    put(&mut out, from_byte(text, at))?;
    Ok(out)
}

/// Puts down what stands before a definition, and the stub of this.
fn put_piece(
    alloc: Global,
    text: &[u8],
    supplies: &[&[u8]],
    at: usize,
    defined: &Module<'_>,
    out: &mut Vec<u8>,
) -> Result<(), StubErr>
    ensures { spec.Puts (spec.piece_of text.now (texts_of supplies.now) at defined.now) out.old.items result
        out.new.items }
{
    put(out, between(text, at, defined.start()))?;
    put_stub_of(alloc, supplies, defined, out)
}

/// Puts down the stub of a definition.
fn put_stub_of(
    alloc: Global,
    supplies: &[&[u8]],
    defined: &Module<'_>,
    out: &mut Vec<u8>,
) -> Result<(), StubErr>
    ensures { spec.Puts (spec.stub_of (texts_of supplies.now) defined.now) out.old.items result out.new.items }
{
    let known = known_of(alloc, supplies, defined.parts())?;
    put_ports(defined.name(), known.listed(), out)
}

/// Puts down the stub of a name with its ports.
fn put_ports(name: Spelled<'_>, listed: &Listed<'_>, out: &mut Vec<u8>) -> Result<(), StubErr>
    ensures { spec.Puts (spec.stub_of_ports (seen name.entry) listed.now (spec.undirected listed.now listed.now.names))
        out.old.items result out.new.items }
{
    match undirected(listed, listed.names().as_slice()) {
        Some(fault) => Err(StubErr::Refused(fault)),
        None => Ok(put_stub(out, name, listed)?),
    }
}

/// The first port of the header that isn't declared.
fn undirected(listed: &Listed<'_>, names: &[Spelled<'_>]) -> Option<StubFault>
    ensures { result ≡ spec.undirected listed.now (map seen names.now) }
{
    let mut rest = names;
    'names: while let [name, after @ ..] = rest {
        if listed.declaration_of(*name).is_none() {
            return Some(StubFault::Undirected { at: name.start() });
        }
        rest = after;
    }
    None
}

/// Whether a definition is of a module that has one of the names.
fn is_stubbed(names: &[&[u8]], defined: &Module<'_>) -> bool
    ensures { result ≡ spec.is_stubbed (texts_of names.now) defined.now }
{
    defined.is_module() && is_among(names, defined.name().name())
}

/// The first of the names that no module has.
fn missing<'n>(modules: &[Module<'_>], names: &[&'n [u8]]) -> Option<&'n [u8]>
    ensures { option_map (λ name. name.now) result ≡ spec.missing modules.now (texts_of names.now) }
{
    let mut rest = names;
    'names: while let [name, after @ ..] = rest {
        if !is_defined(modules, name) {
            return Some(name);
        }
        rest = after;
    }
    None
}

/// Whether a module has a name.
fn is_defined(modules: &[Module<'_>], name: &[u8]) -> bool
    ensures { result ≡ spec.is_defined modules.now name.now }
{
    modules.iter().any(|module| module.is_named(name))
}

/// No module has the name.
fn no_module(alloc: Global, name: &[u8]) -> StubErr
    ensures { spec.IfStubRefused (λ fault. fault ≡ Text (NoTop name.now)) result }
{
    match Vec::from_slice(alloc, name) {
        Ok(name) => StubErr::Refused(StubFault::Text(TrimFault::NoTop {
            name: Items::from_vec(name),
        })),
        Err(_) => StubErr::Memory,
    }
}

/// The bytes of a text from one place up to another.
fn between(text: &[u8], from: usize, to: usize) -> &[u8]
    ensures { result.now ≡ slice_range text.now from to }
{
    let end = to.min(text.len());
    if from < end {
        &text[from..end]
    } else {
        &text[..0]
    }
}

/// The bytes of a text from one on.
fn from_byte(text: &[u8], at: usize) -> &[u8]
    ensures { result.now ≡ drop at text.now }
{
    if at < text.len() {
        &text[at..]
    } else {
        &text[..0]
    }
}
