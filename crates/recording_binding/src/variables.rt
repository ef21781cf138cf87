//! The variables of a recording that are bound, in its order.

ghost use Rattle.std.specs.Prelude.{◌≡◌, ◌≢◌, ◌<◌, ◌≤◌, ◌^◌, ◌++◌, [], false, Some, All, OnOk, IfOk, IfErr, length};
ghost use Rattle.recording_reader.specs.Recording.{IsRecording, IsVariable, path_at};
ghost use Rattle.recording_binding.specs.Bounds.{bound_in, bounds_of, differs_in, ends_of};
ghost use Rattle.recording_binding.specs.Refusal.{IsFirstDiffering, NoneDiffers, RefusesAt};
ghost use Rattle.recording_binding.specs.declared.refusal.BindErr.TheVariants.{Memory as OutOfMemory};

use crate::binding::Bound;
use crate::bits::{Matched, index_of};
use crate::matcher::Matcher;
use crate::refusal::BindErr;
use base_lists::{Items, Memory};
use design_circuit::{Bytes, Design};
use recording_reader::{Recording, Variable};
use std::alloc::Global;

/// Binds each variable that names nets.
pub fn bind_variables(alloc: Global, matcher: &Matcher<'_>) -> Result<Vec<Bound>, BindErr>
    ensures recording { IsRecording matcher.now.recording }
    ensures bound { let under = matcher.now in
        IfOk result (λ bound. bound.items ≡ bounds_of under.design under.scope under.recording) }
    ensures none { let under = matcher.now in
        OnOk result (NoneDiffers under.design under.scope under.recording (length under.recording.variables)) }
    ensures differs { let under = matcher.now in
        IfErr result (λ e. e ≢ OutOfMemory → IsFirstDiffering under.design under.scope under.recording e) }
{
    let mut bound = Vec::new(alloc);
    'variables: for (number, variable) in matcher.recording().variables().iter().enumerate() {
        bind_variable(alloc, matcher, number as u32, variable, &mut bound)?;
    }
    Ok(bound)
}

fn bind_variable(
    alloc: Global,
    matcher: &Matcher<'_>,
    number: u32,
    variable: &Variable,
    bound: &mut Vec<Bound>,
) -> Result<(), BindErr>
    requires { IsVariable (length matcher.now.recording.scopes) variable.now }
    ensures bound { let under = matcher.now in
        OnOk result (bound.new.items
        ≡ bound.old.items ++ bound_in under.design under.scope under.recording number (Some variable.now)) }
    ensures none { let under = matcher.now in
        OnOk result (differs_in under.design under.scope under.recording (Some variable.now) ≡ false) }
    ensures differs { let under = matcher.now in
        IfErr result (λ e.
        e ≢ OutOfMemory → RefusesAt under.design under.scope under.recording number variable.now e) }
{
    match matcher.matched(alloc, variable)? {
        Matched::Nothing => Ok(()),
        Matched::Differs => Err(BindErr::RangeDiffers { variable: number }),
        Matched::Bits(bits) => {
            let path = path_of(alloc, matcher.recording(), variable.scope)?;
            let range = ends_of(matcher.design(), bits.as_slice());
            bound.push(Bound {
                variable: number,
                bits,
                path,
                range,
            })?;
            Ok(())
        }
    }
}

/// The names of a scope's path.
fn path_of(alloc: Global, recording: &Recording, scope: u32) -> Result<Items<Bytes>, Memory>
    requires known { scope < length recording.now.scopes }
    requires outside { path_at recording.now.scopes 0 ≡ [] }
    ensures { IfOk result (λ path. path ≡ path_at recording.now.scopes scope) }
{
    let mut names = Vec::new(alloc);
    let mut at = scope;
    'scopes: while at != 0 {
        names.push(Items::from_vec(recording.scope_name(at).to_vec(alloc)?))?;
        at = recording.scope_parent(at);
    }
    names.reverse();
    Ok(Items::from_vec(names))
}

/// The index of the first and of the last of these bits; none for a scalar net.
fn ends_of(design: &Design, bits: &[u32]) -> Option<(u32, u32)>
    requires some { 0 < length bits.now }
    requires nets { All (λ net. net < length design.now.nets) bits.now }
    ensures { result ≡ ends_of design.now bits.now }
{
    match (
        index_of(design, bits[0]),
        index_of(design, bits[bits.len() - 1]),
    ) {
        (Some(first), Some(last)) => Some((first, last)),
        _ => None,
    }
}
