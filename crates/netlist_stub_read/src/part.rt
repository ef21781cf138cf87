//! Parts of a module that declare.

ghost use Rattle.std.specs.Prelude.{◌≡◌};

use crate::role::Role;
use netlist_trim::Spelled;
use std::alloc::{AllocFailed, Global};
use std::marker::Model;

/// A token and what it is.
#[derive(Clone, Copy)]
pub struct Part<'t> {
    pub role: Role,
    pub token: Spelled<'t>,
}

/// Parts in order. Contracts see the list of them.
#[derive(Drop)]
pub struct Parts<'t> {
    parts: Vec<Part<'t>>,
}

impl<'t> Model for Parts<'t> {
    ghost use Rattle.std.specs.Prelude.{List, map};
    ghost use Rattle.netlist_stub_read.specs.Parts as spec;

    ghost Value = { List spec.Part };

    ghost view = { λ s. map spec.seen_part s.parts.items };
}

impl<'t> Parts<'t> {
    ghost use Rattle.std.specs.Prelude.{◌≡◌, ◌∷◌, ◌++◌, [], map, OnOk};
    ghost use Rattle.netlist_stub_read.specs.Parts.{seen_part};

    /// No parts.
    pub fn new(alloc: Global) -> Parts<'t>
        ensures { result ≡ [] }
    {
        Parts {
            parts: Vec::new(alloc),
        }
    }

    /// A part more.
    pub fn push(&mut self, part: Part<'t>) -> Result<(), AllocFailed<Part<'t>>>
        ensures { OnOk result (self.new ≡ self.old ++ seen_part part.entry ∷ []) }
    {
        self.parts.push(part)
    }

    /// The parts as a slice.
    pub fn as_slice(&self) -> &[Part<'t>]
        ensures { map seen_part result.now ≡ self.now }
    {
        self.parts.as_slice()
    }
}
