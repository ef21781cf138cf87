//! Binding the variables of a recording to the nets of a design.

ghost use Rattle.std.specs.Prelude.{◌≡◌, ◌≢◌, ◌<◌, ◌≤◌, ◌^◌, All, OnOk, IfOk, IfErr, length};
ghost use Rattle.design_circuit.specs.Design.{FitsDesign};
ghost use Rattle.recording_binding.specs.Binding.{FitsBinding};
ghost use Rattle.recording_binding.specs.Bounds.{IsOf};
ghost use Rattle.recording_binding.specs.Holding.{FitsHeld};
ghost use Rattle.recording_binding.specs.Refusal.{AllBound, HasMany, IsBinding, IsFirstMissing, IsRefusal, place_count};
ghost use Rattle.recording_binding.specs.declared.refusal.BindErr.TheVariants.{Memory as OutOfMemory};

use crate::binding::{Binding, Bound};
use crate::inputs::{holders_of, missing_input};
use crate::matcher::Matcher;
use crate::refusal::BindErr;
use crate::variables::bind_variables;
use base_lists::{Items, Memory};
use design_circuit::{Bytes, Design};
use recording_reader::Recording;
use std::alloc::Global;

/// Binds the variables of a recording in this scope and below to the nets that they name, for a replay of so many
/// rounds and of at most so many places: nets by moments by rounds.
pub fn bind(
    alloc: Global,
    design: &Design,
    recording: &Recording,
    scope: &[Bytes],
    rounds: u32,
    most: u64,
) -> Result<Binding, BindErr>
    requires fits { FitsDesign design.now }
    requires some { 0 < length scope.now }
    requires round { 1 ≤ rounds }
    requires rounds { rounds ≤ 16 }
    ensures bound { IfOk result (IsBinding design.now recording.now scope.now rounds most) }
    ensures refused { IfErr result (λ e. e ≢ OutOfMemory
        → IsRefusal design.now recording.now scope.now rounds most e) }
    ensures fits { IfOk result (FitsBinding design.now) }
    ensures variables { IfOk result (λ binding. All (IsOf recording.now) binding.bound) }
{
    let matcher = Matcher::new(alloc, design, recording, scope)?;
    if !matcher.has_scope() {
        return Err(BindErr::NoScope);
    }
    let bound = bind_variables(alloc, &matcher)?;
    check_inputs(alloc, design, bound.as_slice())?;
    check_places(design, recording, rounds, most)?;
    let timescale = scale_of(alloc, recording)?;
    Ok(Binding {
        timescale,
        bound: Items::from_vec(bound),
    })
}

/// Refuses variables among whose bits an input isn't.
fn check_inputs(alloc: Global, design: &Design, bound: &[Bound]) -> Result<(), BindErr>
    requires fits { All (FitsHeld design.now) bound.now }
    requires few { length design.now.nets ≤ 2 ^ 20 }
    ensures all { OnOk result (AllBound design.now bound.now (length design.now.nets)) }
    ensures missing { IfErr result (λ e. e ≢ OutOfMemory → IsFirstMissing design.now bound.now e) }
{
    let holders = holders_of(alloc, design, bound)?;
    match missing_input(design, holders.as_slice()) {
        Some(net) => Err(BindErr::MissingInput { net }),
        None => Ok(()),
    }
}

/// Refuses more places than the most.
fn check_places(
    design: &Design,
    recording: &Recording,
    rounds: u32,
    most: u64,
) -> Result<(), BindErr>
    requires few { length design.now.nets ≤ 2 ^ 20 }
    requires rounds { rounds ≤ 16 }
    ensures few { OnOk result (place_count design.now recording.now rounds ≤ most) }
    ensures many { IfErr result (λ e. HasMany design.now recording.now rounds most e) }
{
    let moments = recording.times().len() as u64;
    let places = design.nets.as_slice().len() as u64 * (moments * rounds as u64);
    if places > most {
        return Err(BindErr::TooLarge { places });
    }
    Ok(())
}

/// The timescale of a recording.
fn scale_of(alloc: Global, recording: &Recording) -> Result<Option<Bytes>, Memory>
    ensures { IfOk result (λ scale. scale ≡ recording.now.timescale) }
{
    match recording.timescale() {
        Some(scale) => Ok(Some(Items::from_vec(scale.to_vec(alloc)?))),
        None => Ok(None),
    }
}
