//! Names as refusals print them.

ghost use Rattle.std.specs.Prelude.{◌≡◌, ◌<◌, ◌++◌, ℕ, IfOk, OnOk, drop, length, map};
ghost use Rattle.recording_reader.specs.Recording.{path_at};
ghost use Rattle.cmd_job.specs.Names as spec;

use base_lists::{Items, Memory};
use design_circuit::{Bytes, Design};
use recording_reader::Recording;
use std::alloc::{AllocError, Global};

/// The written names of nets.
pub fn written_names(alloc: Global, design: &Design, nets: &[u32]) -> Result<Items<Bytes>, Memory>
    requires { spec.AreNets design.now nets.now }
    ensures { IfOk result (λ names. names ≡ map (spec.net_name design.now) nets.now) }
{
    let mut names = Vec::new(alloc);
    'nets: for net in nets {
        let name = name_of(alloc, design, *net)?;
        names.push(name)?;
    }
    Ok(Items::from_vec(names))
}

/// The written name of a net.
pub fn name_of(alloc: Global, design: &Design, net: u32) -> Result<Bytes, Memory>
    requires { net < length design.now.nets }
    ensures { IfOk result (λ name. name ≡ spec.net_name design.now net) }
{
    let name = design.written_name(alloc, net)?;
    Ok(Items::from_vec(name))
}

/// Names joined by dots.
pub fn joined(alloc: Global, names: &[Bytes]) -> Result<Bytes, Memory>
    ensures { IfOk result (λ text. text ≡ spec.dotted names.now) }
{
    let mut text = Vec::new(alloc);
    if let [first, rest @ ..] = names {
        text.extend_from_slice(first.as_slice())?;
        put_dots_before(&mut text, rest)?;
    }
    Ok(Items::from_vec(text))
}

/// Puts names, each with a dot before it.
fn put_dots_before(text: &mut Vec<u8>, names: &[Bytes]) -> Result<(), AllocError>
    ensures { OnOk result (text.new.items ≡ text.old.items ++ spec.dots_before names.now) }
{
    'names: for name in names {
        text.push(b'.')?;
        text.extend_from_slice(name.as_slice())?;
    }
    Ok(())
}

/// The name of a variable: its scopes below the scope path and its reference, without a range directly after it, joined
/// by dots.
pub fn variable_name(
    alloc: Global,
    recording: &Recording,
    scope: &[Bytes],
    number: u32,
) -> Result<Bytes, Memory>
    requires { number < length recording.now.variables }
    ensures { IfOk result (spec.IsVariableName scope.now recording.now number) }
{
    let variable = &recording.variables()[number as usize];
    let path = path_of(alloc, recording, variable.scope)?;
    let mut text = Vec::new(alloc);
    put_dots_after(&mut text, below(path.as_slice(), scope.len()))?;
    text.extend_from_slice(variable.bare_reference())?;
    Ok(Items::from_vec(text))
}

/// The names after the first `count`.
fn below(path: &[Bytes], count: usize) -> &[Bytes]
    ensures { result.now ≡ drop count path.now }
{
    if count < path.len() {
        &path[count..]
    } else {
        &[]
    }
}

/// Puts names, each with a dot after it.
fn put_dots_after(text: &mut Vec<u8>, names: &[Bytes]) -> Result<(), AllocError>
    ensures { OnOk result (text.new.items ≡ text.old.items ++ spec.dots_after names.now) }
{
    'names: for name in names {
        text.extend_from_slice(name.as_slice())?;
        text.push(b'.')?;
    }
    Ok(())
}

/// The names of a scope's path.
fn path_of(alloc: Global, recording: &Recording, scope: u32) -> Result<Items<Bytes>, Memory>
    requires { scope < length recording.now.scopes }
    ensures { IfOk result (λ path. path ≡ path_at recording.now.scopes scope) }
{
    let _scopes = recording.scope_count();
    let mut names = Vec::new(alloc);
    let mut at = scope;
    'scopes: while at != 0 {
        names.push(Items::from_vec(recording.scope_name(at).to_vec(alloc)?))?;
        at = recording.scope_parent(at);
    }
    names.reverse();
    Ok(Items::from_vec(names))
}
