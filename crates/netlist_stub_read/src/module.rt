//! What a text defines, with the parts that declare.

ghost use Rattle.std.specs.Prelude.{◌≡◌, ◌++◌, OnOk};
ghost use Rattle.netlist_trim.specs.Shown.{seen};
ghost use Rattle.netlist_trim.specs.declared.fault.TrimErr.TheVariants.{Refused};
ghost use Rattle.netlist_trim.specs.declared.fault.TrimFault.TheVariants.{Open};
ghost use Rattle.netlist_stub_read.specs.Modules.{ReadsBody, ReadsModule, ReadsModules};
ghost use Rattle.netlist_stub_read.specs.Parts.{part_of};

use crate::part::{Part, Parts};
use crate::role::Role;
use crate::state::State;
use crate::word::is;
use base_lists::Memory;
use netlist_trim::{Reader, Spelled, TrimErr, TrimFault};
use std::alloc::Global;
use std::marker::Model;

/// A module or a primitive: its name, its bytes in the text, and its parts that declare.
#[derive(Drop)]
pub struct Module<'t> {
    name: Spelled<'t>,
    start: usize,
    end: usize,
    is_module: bool,
    parts: Parts<'t>,
}

impl<'t> Model for Module<'t> {
    ghost use Rattle.netlist_trim.specs.Shown.{seen};
    ghost use Rattle.netlist_stub_read.specs.Modules as spec;

    ghost Value = { spec.Module };

    ghost view = { λ m. record {
      name = seen m.name;
      start = m.start;
      «end» = m.end;
      is_module = m.is_module;
      parts = m.parts;
    } };
}

impl<'t> Module<'t> {
    ghost use Rattle.std.specs.Prelude.{◌≡◌, map};
    ghost use Rattle.netlist_trim.specs.Shown.{seen};
    ghost use Rattle.netlist_stub_read.specs.Parts.{seen_part};
    ghost use Rattle.netlist_stub_read.specs.Modules.{is_named};

    /// Its name.
    pub fn name(&self) -> Spelled<'t>
        ensures { seen result ≡ self.now.name }
    {
        self.name
    }

    /// The byte that it begins at.
    pub fn start(&self) -> usize
        ensures { result ≡ self.now.start }
    {
        self.start
    }

    /// The byte after its last.
    pub fn end(&self) -> usize
        ensures { result ≡ self.now.«end» }
    {
        self.end
    }

    /// Whether it is a module.
    pub fn is_module(&self) -> bool
        ensures { result ≡ self.now.is_module }
    {
        self.is_module
    }

    /// Whether it is a module of this name.
    pub fn is_named(&self, name: &[u8]) -> bool
        ensures { result ≡ is_named name.now self.now }
    {
        self.is_module && name == self.name.name()
    }

    /// Its parts that declare.
    pub fn parts(&self) -> &[Part<'t>]
        ensures { map seen_part result.now ≡ self.now.parts }
    {
        self.parts.as_slice()
    }
}

/// All definitions of the tokens that are left, in order.
pub fn read_modules<'t>(alloc: Global, tokens: &mut Reader<'t>) -> Result<Vec<Module<'t>>, TrimErr>
    ensures { ReadsModules tokens.old result }
{
    let mut found = Vec::new(alloc);
    'modules: while let Some(opening) = tokens.next_opening()? {
        found.push(read_module(alloc, tokens, opening)?)?;
    }
    Ok(found)
}

/// A definition, after the word that opens it.
fn read_module<'t>(
    alloc: Global,
    tokens: &mut Reader<'t>,
    opening: Spelled<'t>,
) -> Result<Module<'t>, TrimErr>
    ensures { ReadsModule (seen opening.entry) tokens.old result tokens.new }
{
    let Some(name) = tokens.next()? else {
        return Err(open_at(opening.start()));
    };
    let mut parts = Parts::new(alloc);
    let end = read_body(tokens, opening, &mut parts)?;
    Ok(Module {
        name,
        start: opening.start(),
        end,
        is_module: !is(opening, b"primitive"),
        parts,
    })
}

/// What stands within a definition, with the word that closes it: where that ends. Puts down the parts.
fn read_body<'t>(
    tokens: &mut Reader<'t>,
    opening: Spelled<'t>,
    parts: &mut Parts<'t>,
) -> Result<usize, TrimErr>
    ensures { ReadsBody (seen opening.entry) tokens.old result parts.old parts.new tokens.new }
{
    let mut state = State::Named;
    'tokens: while let Some(token) = tokens.next()? {
        if token.closes(opening) {
            return Ok(token.end());
        }
        push_part(parts, state.role_of(token), token)?;
        state = state.next(token);
    }
    Err(open_at(opening.start()))
}

/// Puts down a token, if it is a part.
fn push_part<'t>(
    parts: &mut Parts<'t>,
    role: Option<Role>,
    token: Spelled<'t>,
) -> Result<(), Memory>
    ensures { OnOk result (parts.new ≡ parts.old ++ part_of role (seen token.entry)) }
{
    if let Some(role) = role {
        parts.push(Part { role, token })?;
    }
    Ok(())
}

/// The definition that begins here isn't closed.
fn open_at(at: usize) -> TrimErr
    ensures { result ≡ Refused (Open at) }
{
    TrimErr::Refused(TrimFault::Open { at })
}
