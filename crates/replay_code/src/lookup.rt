//! Names and times of a code text, looked up.

ghost use Rattle.std.specs.Prelude.{◌≡◌, ◌<◌, ◌≤◌, ℕ, IfOk, IfSome, All, MatchOption, List, map, length, slice_index};
ghost use Rattle.std.specs.Prelude.{bytes_eq};
ghost use Rattle.std.specs.Borrow.{Bor};
ghost use Rattle.std.specs.List.Sorted.{IsStrictlyIncreasing};
ghost use Rattle.design_circuit.specs.Design.{FitsDesign};
ghost use Rattle.recording_binding.specs.Keys as keys;
ghost use Rattle.recording_binding.specs.Naming.{index_of};
ghost use Rattle.replay_code.specs.Lookup as spec;
ghost use Rattle.replay_code.specs.Clock.{moment_at};
ghost use Rattle.replay_code.specs.Machine.{net_named};
ghost use Rattle.replay_code.specs.Found as found;

use crate::bytes::are_same;
use crate::progress::Progress;
use base_lists::Memory;
use design_circuit::{Bytes, Design, Stim};
use recording_binding::{Names, put_text};
use std::alloc::Global;

/// The moment at a time, where those before this one are earlier.
pub fn moment_from(stim: &Stim, from: usize, time: u64) -> Option<usize>
    requires times { IsStrictlyIncreasing stim.now.times }
    requires earlier { (k : ℕ) → k < from → slice_index stim.now.times k < time }
    ensures { result ≡ moment_at stim.now time }
{
    let times = stim.times.as_slice();
    'times: for next in from..times.len() {
        if times[next] == time {
            return Some(next);
        }
        if times[next] > time {
            return None;
        }
    }
    None
}

/// The net that the names in hand, and the index behind them, name. Takes the key of the names for a while.
pub fn net_named(alloc: Global, progress: &Progress<'_>) -> Result<Option<u32>, Memory>
    ensures named { IfOk result (λ net. net ≡ net_named progress.now) }
    ensures within { IfOk result (λ net. IfSome net (λ n. n < length progress.now.code.design.nets)) }
{
    match below(progress.code.scope, progress.texts.as_slice()) {
        Some(texts) => net_of(alloc, &progress.names, texts, progress.index),
        None => Ok(None),
    }
}

/// What stands behind the names of a scope, where names begin with these.
fn below<'n, 'a>(scope: &[Bytes], texts: &'n [&'a [u8]]) -> Option<&'n [&'a [u8]]>
    ensures { found.IsBelow (spec.below scope.now (found.texts_in texts.now)) result }
{
    match scope {
        [] => Some(texts),
        [name, scope @ ..] => match texts {
            [] => None,
            [text, texts @ ..] => {
                if are_same(name.as_slice(), text) {
                    below(scope, texts)
                } else {
                    None
                }
            }
        },
    }
}

/// The net of a name.
fn net_of(
    alloc: Global,
    names: &Names<'_>,
    texts: &[&[u8]],
    index: Option<u32>,
) -> Result<Option<u32>, Memory>
    ensures named { IfOk result (λ net. net ≡ spec.net_of names.now (found.texts_in texts.now) index) }
    ensures within { IfOk result (λ net. IfSome net (λ n. n < length names.now.nets)) }
{
    let design = names.design();
    match key_of(alloc, texts)? {
        Some(key) => Ok(net_with(design, names.nets(key.as_slice()), index)),
        None => Ok(None),
    }
}

/// The key of names, none where one has a space, which no name of a net has.
fn key_of(alloc: Global, texts: &[&[u8]]) -> Result<Option<Vec<u8>>, Memory>
    ensures { IfOk result (λ key. found.IsKeyOf (found.texts_in texts.now) (found.items_in key)) }
{
    let mut key = Vec::new(alloc);
    let mut rest = texts;
    'texts: while let [text, after @ ..] = rest {
        if !is_solid(text) {
            return Ok(None);
        }
        put_text(&mut key, text)?;
        rest = after;
    }
    Ok(Some(key))
}

/// Whether a text has no space.
fn is_solid(text: &[u8]) -> bool
    ensures { result ≡ keys.is_solid text.now }
{
    text.iter().all(|b| *b != b' ')
}

/// The net of these that has this index.
fn net_with(design: &Design, nets: &[u32], index: Option<u32>) -> Option<u32>
    requires { All (λ net. net < length design.now.nets) nets.now }
    ensures { found.IsFoundNet design.now nets.now index result }
{
    let guess = guessed_place(design, nets, index);
    if guess < nets.len() && has_index(design, nets[guess], index) {
        return Some(nets[guess]);
    }
    scanned(design, nets, index)
}

/// Where the net of an index stands if the indexes of the nets go up or down by one, as those of a declared vector do.
fn guessed_place(design: &Design, nets: &[u32], index: Option<u32>) -> usize
    requires { All (λ net. net < length design.now.nets) nets.now }
{
    let Some(index) = index else {
        return 0;
    };
    match nets.first() {
        Some(net) => match index_of(design, *net) {
            Some(first) if first <= index => (index - first) as usize,
            Some(first) => (first - index) as usize,
            None => 0,
        },
        None => 0,
    }
}

fn scanned(design: &Design, nets: &[u32], index: Option<u32>) -> Option<u32>
    requires { All (λ net. net < length design.now.nets) nets.now }
    ensures { found.IsFoundNet design.now nets.now index result }
{
    'nets: for net in nets {
        if has_index(design, *net, index) {
            return Some(*net);
        }
    }
    None
}

fn has_index(design: &Design, net: u32, index: Option<u32>) -> bool
    requires { net < length design.now.nets }
    ensures { result ≡ spec.same_index (index_of design.now net) index }
{
    match (index_of(design, net), index) {
        (None, None) => true,
        (Some(own), Some(index)) => own == index,
        _ => false,
    }
}

/// The index of a net of a vector.
fn index_of(design: &Design, net: u32) -> Option<u32>
    requires { net < length design.now.nets }
    ensures { result ≡ index_of design.now net }
{
    design.nets.as_slice()[net as usize].path.bit
}
