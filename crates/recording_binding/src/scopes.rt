//! The scopes of a recording beside a scope path: each with the key of the names that its variables' names begin with.

ghost use Rattle.std.specs.Prelude.{◌≡◌, ◌<◌, ◌≤◌, ◌+◌, [], ◌∷◌, ◌++◌, true, false, IfOk, length, map};
ghost use Rattle.std.specs.List.{list_any};
ghost use Rattle.design_circuit.specs.Design.{FitsDesign};
ghost use Rattle.design_circuit.specs.declared.design.Design.{Design};
ghost use Rattle.recording_reader.specs.Recording.{path_at};
ghost use Rattle.recording_binding.specs.Keys.{IsKey};
ghost use Rattle.recording_binding.specs.Naming.{Texts};
ghost use Rattle.recording_binding.specs.Telling.{Standing, Within, standing_of, bare};
ghost use Rattle.recording_binding.specs.Scopes as spec;

use crate::naming::{Names, is_solid, put_text};
use base_lists::{Items, Memory};
use design_circuit::Bytes;
use recording_reader::Recording;
use std::alloc::Global;

/// What is kept of a scope.
#[derive(Drop)]
pub enum ScopeKey {
    /// Nothing in it or below is bound.
    Apart,
    /// Its path has so many names of the scope path, and no others.
    Above(usize),
    /// It stands at or below the scope path; the key of its names below, without the backslashes.
    Within(Bytes),
}

/// What is kept of each scope. Takes 32 bytes for each, and for one in which variables may be bound its key, which is
/// no longer than the longest of a net.
pub fn keys_of(
    alloc: Global,
    names: &Names<'_>,
    recording: &Recording,
    scope: &[Bytes],
) -> Result<Vec<ScopeKey>, Memory>
    requires fits { FitsDesign names.now }
    requires some { 0 < length scope.now }
    ensures outside { path_at recording.now.scopes 0 ≡ [] }
    ensures kept { IfOk result (λ keys.
        spec.KeepsAll names.now scope.now recording.now.scopes keys.items (length recording.now.scopes)) }
{
    let count = recording.scope_count() as u32;
    let mut keys = first_key(alloc)?;
    'scopes: for number in 1..count {
        let above = &keys[recording.scope_parent(number) as usize];
        let key = key_below(alloc, names, scope, above, recording.scope_name(number))?;
        keys.push(key)?;
    }
    Ok(keys)
}

/// What is kept of the place outside every scope.
fn first_key(alloc: Global) -> Result<Vec<ScopeKey>, Memory>
    ensures { IfOk result (λ keys. keys.items ≡ ScopeKey.Above 0 ∷ []) }
{
    let mut keys = Vec::new(alloc);
    keys.push(ScopeKey::Above(0))?;
    Ok(keys)
}

/// What is kept of a scope of this name, within one of which this is kept.
fn key_below(
    alloc: Global,
    names: &Names<'_>,
    scope: &[Bytes],
    above: &ScopeKey,
    name: &[u8],
) -> Result<ScopeKey, Memory>
    requires { FitsDesign names.now }
    ensures { (standing : Standing) → spec.Keeps names.now scope.now standing above.now
        → IfOk result (λ key. spec.Keeps names.now scope.now (spec.standing_below standing name.now) key) }
{
    match above {
        ScopeKey::Apart => Ok(ScopeKey::Apart),
        ScopeKey::Above(depth) => Ok(key_towards(alloc, scope, *depth, name)),
        ScopeKey::Within(key) => key_within(alloc, names, key.as_slice(), name),
    }
}

/// What is kept of a scope whose path has one name more than so many of the scope path.
fn key_towards(alloc: Global, scope: &[Bytes], depth: usize, name: &[u8]) -> ScopeKey
    ensures { (design : Design) (left : Texts) → spec.IsAbove scope.now left depth
        → spec.Keeps design scope.now (standing_of left (name.now ∷ [])) result }
{
    if depth >= scope.len() || scope[depth].as_slice() != name {
        return ScopeKey::Apart;
    }
    if depth + 1 < scope.len() {
        ScopeKey::Above(depth + 1)
    } else {
        ScopeKey::Within(Items::from_vec(Vec::new(alloc)))
    }
}

/// What is kept of a scope with one name more than this key stands for.
fn key_within(alloc: Global, names: &Names<'_>, key: &[u8], name: &[u8]) -> Result<ScopeKey, Memory>
    requires { FitsDesign names.now }
    ensures { (scope below : Texts) → IsKey (map bare below) key.now
        → IfOk result (λ kept. spec.Keeps names.now scope (Within (below ++ name.now ∷ [])) kept) }
{
    let text = bare(name);
    if !is_solid(text) {
        return Ok(ScopeKey::Apart);
    }
    if is_longer(key, text, names.longest()) {
        return Ok(ScopeKey::Apart);
    }
    let mut own = Vec::from_slice(alloc, key)?;
    put_text(&mut own, text)?;
    Ok(ScopeKey::Within(Items::from_vec(own)))
}

/// Whether a key with a text behind it is longer than that.
fn is_longer(key: &[u8], text: &[u8], longest: usize) -> bool
    ensures { result ≡ true → longest < length key.now + length text.now + 1 }
{
    longest < key.len() || longest - key.len() <= text.len()
}

/// A recorded name without the first of the backslashes at its head.
pub fn bare(name: &[u8]) -> &[u8]
    ensures { result.now ≡ bare name.now }
{
    match name {
        [first, rest @ ..] => { if *first == b'\\' { rest } else { name } }
        [] => name,
    }
}

/// Whether something is kept of a scope that has the scope path.
pub fn has_top(keys: &[ScopeKey]) -> bool
    ensures { result ≡ list_any spec.is_top keys.now }
{
    keys.iter().any(is_top)
}

fn is_top(key: &ScopeKey) -> bool
    ensures { result ≡ spec.is_top key.now }
{
    match key {
        ScopeKey::Within(key) => key.as_slice().is_empty(),
        _ => false,
    }
}
