//! Recordings.

ghost use Rattle.std.specs.Prelude.{◌≡◌, ◌<◌, length};

use crate::declarations::Declarations;
use crate::variable::{Scope, Variable};
use base_lists::Items;
use design_cell::Value;
use recording_changes::Changes;
use std::marker::Model;

/// A recording. Scopes are numbered in the order of the text, from 1; 0 is the place outside every scope. Variables and
/// moments are numbered from 0.
#[derive(Drop)]
pub struct Recording {
    timescale: Option<Items<u8>>,
    scopes: Vec<Scope>,
    variables: Vec<Variable>,
    numbers: Vec<u32>,
    times: Vec<u64>,
    changes: Changes,
}

impl Model for Recording {
    ghost use Rattle.recording_reader.specs.Recording.{Recording, seen_of};
    ghost use Rattle.recording_reader.specs.Trees.{AreDeclared, AreTimes};

    ghost Value = { Recording };

    ghost view = { λ r. seen_of r.timescale r.scopes.items r.variables.items r.numbers.items r.times.items r.changes };

    ghost invariant = { λ r. AreDeclared r.scopes.items r.variables.items r.numbers.items × AreTimes r.times.items };
}

impl Recording {
    ghost use Rattle.std.specs.Prelude.{◌≡◌, ◌+◌, ◌<◌, ◌≤◌, ◌^◌, [], ◌∷◌, ◌++◌, length, option_map, slice_index};
    ghost use Rattle.std.specs.Prelude.{slice_index_or};
    ghost use Rattle.recording_changes.specs.Held.{moments_of};
    ghost use Rattle.recording_reader.specs.Changes.{recorded};
    ghost use Rattle.recording_reader.specs.Recording.{IsRecording, IsValueAt, IsScopeWithin, path_at, last_name};
    ghost use Rattle.recording_reader.specs.Recording.{value_at, width_at};
    ghost use Rattle.recording_reader.specs.Trees.{AreTimes};

    /// The recording of these declarations, times and changes.
    pub(crate) fn new(declared: Declarations<'_>, times: Vec<u64>, changes: Changes) -> Recording
        requires { AreTimes times.items }
        ensures { result ≡ recorded declared.entry times.items changes.tracks }
    {
        let Declarations {
            alloc: _,
            timescale,
            scopes,
            entered: _,
            codes: _,
            variables,
            numbers,
        } = declared;
        Recording {
            timescale,
            scopes,
            variables,
            numbers,
            times,
            changes,
        }
    }

    /// The number and the unit of the timescale, joined.
    pub fn timescale(&self) -> Option<&[u8]>
        ensures { option_map (λ scale. scale.now) result ≡ self.now.timescale }
    {
        match &self.timescale {
            Some(scale) => Some(scale.as_slice()),
            None => None,
        }
    }

    /// How many scopes there are, with the place outside every scope.
    pub fn scope_count(&self) -> usize
        ensures count { result ≡ length self.now.scopes }
        ensures some { 0 < result }
        ensures few { result < 2 ^ 28 }
        ensures outside { path_at self.now.scopes 0 ≡ [] }
    {
        self.scopes.len() + 1
    }

    /// The scope that a scope is in.
    pub fn scope_parent(&self, scope: u32) -> u32
        requires some { 0 < scope }
        requires known { scope < length self.now.scopes }
        ensures before { result < scope }
        ensures path { IsScopeWithin self.now.scopes scope result }
    {
        self.scopes[scope as usize - 1].parent
    }

    /// The name of a scope.
    pub fn scope_name(&self, scope: u32) -> &[u8]
        requires some { 0 < scope }
        requires known { scope < length self.now.scopes }
        ensures { result.now ≡ last_name (path_at self.now.scopes scope) }
    {
        self.scopes[scope as usize - 1].name.as_slice()
    }

    /// The variables, in the order of the text.
    pub fn variables(&self) -> &[Variable]
        ensures list { result.now ≡ self.now.variables }
        ensures recording { IsRecording self.now }
    {
        self.variables.as_slice()
    }

    /// The width of a variable.
    pub fn width(&self, variable: u32) -> u32
        requires { variable < length self.now.variables }
        ensures is { result ≡ width_at self.now variable }
        ensures some { 1 ≤ result }
        ensures wide { result ≤ 2 ^ 20 }
    {
        self.variables[variable as usize].width
    }

    /// How many changes the text has of the variable's code.
    pub fn change_count(&self, variable: u32) -> usize
        requires { variable < length self.now.variables }
        ensures { result ≡ length (slice_index_or self.now.changes variable []) }
    {
        let number = self.numbers[variable as usize];
        self.changes.count(number as usize)
    }

    /// The moment of a change of the variable's code, by its number among them.
    pub fn change_moment(&self, variable: u32, change: usize) -> u32
        requires variable { variable < length self.now.variables }
        requires change { change < length (slice_index_or self.now.changes variable []) }
        ensures { result ≡ slice_index (moments_of (slice_index_or self.now.changes variable [])) change }
    {
        let number = self.numbers[variable as usize];
        self.changes.moment_of(number as usize, change)
    }

    /// The time of each moment, ascending.
    pub fn times(&self) -> &[u64]
        ensures list { result.now ≡ self.now.times }
        ensures recording { IsRecording self.now }
    {
        self.times.as_slice()
    }

    /// The value of a bit of a variable, counted from the left, in a moment. Takes no memory, and time by the logarithm
    /// of the number of the variable's changes.
    pub fn value(&self, variable: u32, bit: u32, moment: u32) -> Value
        requires variable { variable < length self.now.variables }
        requires bit { bit < width_at self.now variable }
        requires moment { moment < length self.now.times }
        ensures is { result ≡ value_at self.now variable bit moment }
        ensures last { IsValueAt self.now variable bit moment result }
    {
        let (value, _) = self.value_near(variable, bit, moment, usize::MAX);
        value
    }

    /// The same from a hint on: how many changes of the variable come up to some moment. The answer has that number for
    /// this one.
    #[tactic(auto, using(recording_changes::proofs::LastLemmas::is_last_value))]
    pub(crate) fn value_near(
        &self,
        variable: u32,
        bit: u32,
        moment: u32,
        hint: usize,
    ) -> (Value, usize)
        requires variable { variable < length self.now.variables }
        requires bit { bit < width_at self.now variable }
        ensures is { result.0 ≡ value_at self.now variable bit moment }
        ensures last { IsValueAt self.now variable bit moment result.0 }
    {
        let width = self.variables[variable as usize].width;
        let number = self.numbers[variable as usize];
        self.changes
            .value_near(number as usize, width, bit, moment, hint)
    }
}
