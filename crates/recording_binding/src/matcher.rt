//! Variables of a recording, matched with the nets that they name.

ghost use Rattle.std.specs.Prelude.{◌≡◌, ◌≤◌, IfOk};
ghost use Rattle.design_circuit.specs.Design.{FitsDesign};
ghost use Rattle.recording_binding.specs.Keys.{IsKey};
ghost use Rattle.recording_binding.specs.Naming.{Texts};
ghost use Rattle.recording_binding.specs.Telling as spec;

use crate::bits::{Matched, match_nets};
use crate::naming::{Names, is_solid, put_text};
use crate::scopes::{ScopeKey, bare, has_top, keys_of};
use base_lists::Memory;
use design_circuit::{Bytes, Design};
use recording_reader::{Recording, Variable};
use std::alloc::Global;
use std::marker::Model;

/// A recording beside a design, under a scope path: the nets by their names, and what is kept of each scope.
#[derive(Drop)]
pub struct Matcher<'a> {
    names: Names<'a>,
    recording: &'a Recording,
    scope: &'a [Bytes],
    keys: Vec<ScopeKey>,
}

impl<'a> Model for Matcher<'a> {
    ghost use Rattle.recording_binding.specs.Scopes.{KeepsRecording};
    ghost use Rattle.recording_binding.specs.Telling.{Under, under};

    ghost Value = { Under };

    ghost view = { λ m. under m.names m.recording.now m.scope.now };

    ghost invariant = { λ m. KeepsRecording m.names m.scope.now m.recording.now m.keys.items };
}

impl<'a> Matcher<'a> {
    ghost use Rattle.std.specs.Prelude.{◌≡◌, ◌<◌, [], IfOk, length};
    ghost use Rattle.design_circuit.specs.Design.{FitsDesign};
    ghost use Rattle.recording_reader.specs.Recording.{IsVariable, path_at};
    ghost use Rattle.recording_binding.specs.Telling.{has_scope, matched, under};

    /// What is to be matched, under a scope path of one or more names.
    pub fn new(
        alloc: Global,
        design: &'a Design,
        recording: &'a Recording,
        scope: &'a [Bytes],
    ) -> Result<Matcher<'a>, Memory>
        requires fits { FitsDesign design.now }
        requires some { 0 < length scope.now }
        ensures { IfOk result (λ m. m ≡ under design.now recording.now scope.now) }
    {
        let names = Names::new(alloc, design)?;
        let keys = keys_of(alloc, &names, recording, scope)?;
        Ok(Matcher {
            names,
            recording,
            scope,
            keys,
        })
    }

    /// The design.
    pub fn design(&self) -> &'a Design
        ensures is { result.now ≡ self.now.design }
        ensures fits { FitsDesign self.now.design }
    {
        self.names.design()
    }

    /// The recording.
    pub fn recording(&self) -> &'a Recording
        ensures is { result.now ≡ self.now.recording }
        ensures outside { path_at self.now.recording.scopes 0 ≡ [] }
    {
        self.recording
    }

    /// Whether a scope of the recording has the scope path.
    pub fn has_scope(&self) -> bool
        ensures { result ≡ has_scope self.now.scope self.now.recording.scopes }
    {
        has_top(self.keys.as_slice())
    }

    /// What a variable comes to.
    pub fn matched(&self, alloc: Global, variable: &Variable) -> Result<Matched, Memory>
        requires { IsVariable (length self.now.recording.scopes) variable.now }
        ensures { IfOk result (λ m. m ≡ matched self.now.design self.now.scope self.now.recording variable.now) }
    {
        match &self.keys[variable.scope as usize] {
            ScopeKey::Within(key) => match_below(alloc, &self.names, key.as_slice(), variable),
            ScopeKey::Apart | ScopeKey::Above(_) => Ok(Matched::Nothing),
        }
    }
}

/// What a variable comes to in a scope whose names have this key.
fn match_below(
    alloc: Global,
    names: &Names<'_>,
    key: &[u8],
    variable: &Variable,
) -> Result<Matched, Memory>
    requires fits { FitsDesign names.now }
    requires wide { 1 ≤ variable.now.width }
    ensures { (below : Texts) → IsKey below key.now
        → IfOk result (λ m. m ≡ spec.told_below names.now below variable.now) }
{
    match match_recorded(alloc, names, key, variable)? {
        Matched::Nothing => match_name(
            alloc,
            names,
            key,
            variable.bare_reference(),
            variable.range,
            variable.width,
        ),
        Matched::Differs => Ok(Matched::Differs),
        Matched::Bits(bits) => Ok(Matched::Bits(bits)),
    }
}

/// The same by the reference as recorded, with a range directly behind it.
fn match_recorded(
    alloc: Global,
    names: &Names<'_>,
    key: &[u8],
    variable: &Variable,
) -> Result<Matched, Memory>
    requires fits { FitsDesign names.now }
    requires wide { 1 ≤ variable.now.width }
    ensures { (below : Texts) → IsKey below key.now
        → IfOk result (λ m. m ≡ spec.as_recorded names.now below variable.now) }
{
    if variable.direct {
        match_name(
            alloc,
            names,
            key,
            variable.reference.as_slice(),
            None,
            variable.width,
        )
    } else {
        Ok(Matched::Nothing)
    }
}

/// What a variable of this reference, range and width comes to.
fn match_name(
    alloc: Global,
    names: &Names<'_>,
    key: &[u8],
    reference: &[u8],
    range: Option<(u32, u32)>,
    width: u32,
) -> Result<Matched, Memory>
    requires fits { FitsDesign names.now }
    requires wide { 1 ≤ width }
    ensures { (below : Texts) → IsKey below key.now
        → IfOk result (λ m. m ≡ spec.tried names.now below reference.now range width) }
{
    let text = bare(reference);
    if !is_solid(text) {
        return Ok(Matched::Nothing);
    }
    let mut own = Vec::from_slice(alloc, key)?;
    put_text(&mut own, text)?;
    let nets = names.nets(own.as_slice());
    match_nets(alloc, names.design(), nets, range, width)
}
