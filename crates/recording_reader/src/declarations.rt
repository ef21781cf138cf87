//! What is declared so far: scopes, codes and variables. `read_declarations.rt` reads them.

ghost use Rattle.std.specs.Prelude.{◌≡◌, IfOk};

use crate::ranges::RecordedName;
use crate::refusal::VcdErr;
use crate::variable::{Scope, Variable};
use base_lists::{Items, Memory};
use recording_codes::{Codes, Found};
use std::alloc::Global;
use std::marker::Model;

/// At most this many scopes, variables and moments, 2^28 - 1: no text of 2^28 bytes has more.
pub const LIMIT: usize = 268_435_455;

/// What is declared so far.
#[derive(Drop)]
pub struct Declarations<'a> {
    pub alloc: Global,
    pub timescale: Option<Items<u8>>,
    pub scopes: Vec<Scope>,
    pub entered: Vec<u32>,
    pub codes: Codes<'a>,
    pub variables: Vec<Variable>,
    pub numbers: Vec<u32>,
}

impl<'a> Model for Declarations<'a> {
    ghost use Rattle.recording_reader.specs.Declarations.{Declarations, seen_of};
    ghost use Rattle.recording_reader.specs.Trees.{AreHeld};

    ghost Value = { Declarations };

    ghost view = { λ h. seen_of h.timescale h.scopes.items h.entered.items h.codes h.variables.items h.numbers.items };

    ghost invariant = { λ h. AreHeld h.scopes.items h.variables.items h.numbers.items h.entered.items };
}

impl<'a> Declarations<'a> {
    ghost use Rattle.std.specs.Prelude.{◌≡◌, ◌+◌, ◌<◌, ◌≤◌, ◌^◌, ◌==◌, [], ◌∷◌, ◌++◌, nat_lt, length, IfOk, OnOk};
    ghost use Rattle.std.specs.Prelude.{OnErr, IfSome, None, Some, Ok, cond};
    ghost use Rattle.recording_codes.specs.Code.{find};
    ghost use Rattle.recording_reader.specs.Declarations.{StandsInnermost, Returns, nothing, scope_of, open_path};
    ghost use Rattle.recording_reader.specs.Declarations.{with_scale, with_scope, left_scope, with_code, with_kind};
    ghost use Rattle.recording_reader.specs.Declarations.{with_listed, with_variable};
    ghost use Rattle.recording_reader.specs.Naming.{shown_name};
    ghost use Rattle.recording_reader.specs.Reading.{Does};
    ghost use Rattle.recording_reader.specs.Recording.{IsVariable};

    pub fn new(alloc: Global) -> Declarations<'a>
        ensures { result ≡ nothing }
    {
        Declarations {
            alloc,
            timescale: None,
            scopes: Vec::new(alloc),
            entered: Vec::new(alloc),
            codes: Codes::new(alloc),
            variables: Vec::new(alloc),
            numbers: Vec::new(alloc),
        }
    }

    pub fn set_scale(&mut self, front: &[u8], back: &[u8]) -> Result<(), VcdErr>
        ensures { Does result (self.new ≡ with_scale self.old (front.now ++ back.now)) }
    {
        let mut scale = Vec::from_slice(self.alloc, front)?;
        scale.extend_from_slice(back)?;
        self.timescale = Some(Items::from_vec(scale));
        Ok(())
    }

    /// The innermost scope, 0 outside every scope.
    fn scope(&self) -> u32
        ensures { result ≡ scope_of self.now }
    {
        match self.entered.as_slice() {
            [] => 0,
            [.., scope] => *scope,
        }
    }

    /// Enters a new scope. More than `LIMIT` count as out of memory.
    pub fn enter(&mut self, name: &[u8]) -> Result<(), VcdErr>
        ensures is { Does result (self.new ≡ with_scope self.old name.now) }
        ensures innermost { OnOk result (open_path self.new ≡ open_path self.old ++ name.now ∷ []) }
    {
        if self.scopes.len() + 1 >= LIMIT {
            return Err(VcdErr::Memory);
        }
        let scope = (self.scopes.len() + 1) as u32;
        let parent = self.scope();
        let name = bytes_of(self.alloc, name)?;
        self.scopes.push(Scope { parent, name })?;
        self.entered.push(scope)?;
        Ok(())
    }

    /// Leaves the innermost scope, where there is one.
    pub fn leave(&mut self) -> bool
        ensures left { self.new ≡ left_scope self.old }
        ensures some { result ≡ nat_lt 0 (length self.old.entered) }
        ensures outer { Returns self.old self.new }
    {
        match self.entered.pop() {
            Some(_) => true,
            None => false,
        }
    }

    pub fn find(&self, text: &[u8]) -> Option<Found>
        ensures is { result ≡ find self.now.codes text.now }
        ensures within { IfSome result (λ found. found.number < length self.now.codes) }
    {
        self.codes.find(text)
    }

    /// A new code, of one variable, which takes the next number.
    pub fn add_code(&mut self, text: &'a [u8], width: u32, skipped: bool) -> Result<usize, VcdErr>
        requires { find self.old.codes text.now ≡ None }
        ensures is { Does result (self.new ≡ with_code self.old text.now width skipped) }
        ensures number { IfOk result (λ number. number ≡ length self.old.codes) }
    {
        let number = self.codes.len();
        self.codes.add(text, width, skipped)?;
        Ok(number)
    }

    /// One more variable of the code with this number.
    pub fn add_kind(&mut self, number: usize, skipped: bool)
        requires { number < length self.old.codes }
        ensures { self.new ≡ with_kind self.old number skipped }
    {
        self.codes.add_kind(number, skipped);
    }

    /// A variable, which is listed where it isn't skipped. More than `LIMIT`, of codes too, count as out of memory.
    pub fn add_variable(
        &mut self,
        skipped: bool,
        number: usize,
        width: u32,
        name: &RecordedName<'_>,
    ) -> Result<(), VcdErr>
        requires some { 1 ≤ width }
        requires wide { width ≤ 2 ^ 20 }
        ensures is { Does result (self.new ≡ with_variable self.old skipped number width (shown_name name.now)) }
        ensures innermost { OnOk result (StandsInnermost self.old self.new) }
    {
        if skipped {
            return Ok(());
        }
        if number > LIMIT || self.variables.len() >= LIMIT {
            return Err(VcdErr::Memory);
        }
        let reference = bytes_of(self.alloc, name.reference)?;
        let scope = self.scope();
        let variable = Variable {
            scope,
            reference,
            range: name.range,
            direct: name.direct,
            width,
        };
        self.list(variable, number as u32)
    }

    /// A variable after the others, and the number of its code.
    fn list(&mut self, variable: Variable, number: u32) -> Result<(), VcdErr>
        requires variable { IsVariable (length self.old.scopes) variable }
        requires few { length self.old.variables + 1 < 2 ^ 28 }
        ensures { Does result (self.new ≡ with_listed self.old variable number) }
    {
        let count = self.numbers.len();
        self.numbers.push(number)?;
        match self.variables.push(variable) {
            Ok(_) => Ok(()),
            Err(_) => {
                self.numbers.truncate(count);
                Err(VcdErr::Memory)
            }
        }
    }
}

/// A copy of these bytes.
fn bytes_of(alloc: Global, text: &[u8]) -> Result<Items<u8>, Memory>
    ensures { IfOk result (λ bytes. bytes ≡ text.now) }
{
    let bytes = Vec::from_slice(alloc, text)?;
    Ok(Items::from_vec(bytes))
}
